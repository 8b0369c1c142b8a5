//! Reading a line of a script, and doing it on a cube.
ghost use Rattle.std.specs.Prelude.{◌≡◌, ◌<◌, if◌then◌else◌, IfErr, IfOk, IfSome, IsTrue, OnErr, OnOk};
ghost use Rattle.fact_records.specs.Valid.{IsEditOf};
ghost use Rattle.schema_text.specs.Growth.{IsGrowOf};
ghost use Rattle.schema_text.specs.Schema.{shape_of, weigh_of};
ghost use Rattle.fact_keeper.specs.Keeper.{StaysOpen};
ghost use Rattle.script_text.specs.declared.line.Line.TheVariants as line;
ghost use Rattle.script_text.specs.LineOf.{IsLineOf};
ghost use Rattle.script_text.specs.Reply.{NamesCells};
ghost use Rattle.script_text.specs.ScriptLine.{line_of};
ghost use Rattle.script_run.specs.Kept.{Commits, batches_from, batches_of};
ghost use Rattle.script_run.specs.Run.{cube_at, edit_step, growth, refusals_in, state_of, step_from, step_of};
ghost use Rattle.script_run.specs.Seen.{told_of};
ghost use Rattle.script_run.specs.Stop.{IsStopOf, is_edit, refusal_reply};

use cube_base::{Code, Memory};
use cube_core::{Cube, EditFault};
use fact_keeper::Keeper;
use fact_records::Edit;
use region_algebra::Grow;
use region_index::Steps;
use schema_text::{PolicyWord, Schema};
use script_answers::reply;
use script_text::{Line, LineFault, Reply, read_line};
use std::alloc::Global;
use std::marker::Brand;
use std::sync::ledger::{Blank, Ledger};

/// Why a line was not done. The cube and what the keeper holds are as they were.
#[derive(Clone, Copy, Debug, PartialEq, Eq)]
pub enum LineStop {
    /// Out of memory.
    Memory,
    /// The keeper had a fault at the batch of an edit or a growth.
    KeepFault,
}

impl From<Memory> for LineStop {
    ghost use Rattle.std.specs.Prelude.{◌≡◌};
    ghost use Rattle.script_run.specs.declared.script.LineStop.TheVariants as line_stop;

    ghost from_gives = { λ _ stop. stop ≡ line_stop.Memory };

    fn from(_: Memory) -> Self {
        LineStop::Memory
    }
}

/// Reads a line: what it says, or the code by which it is refused. The only error is running out of memory.
pub fn read(alloc: Global, schema: &Schema, line: &[u8]) -> Result<Result<Line, Code>, Memory>
    ensures read { IfOk result (λ read. line_of schema.now line.now ≡ read) }
    ensures within { IfOk result (λ read. IfOk read (IsLineOf schema.now)) }
{
    match read_line(alloc, schema, line) {
        Ok(said) => Ok(Ok(said)),
        Err(LineFault::Code(code)) => Ok(Err(code)),
        Err(LineFault::Memory) => Err(Memory),
    }
}

/// Whether a line that was read edits the facts or the dimensions.
pub fn is_edit(read: &Result<Line, Code>) -> bool
    ensures { result ≡ is_edit read.now }
{
    matches!(read, Ok(Line::Edit(_) | Line::Grow(_)))
}

/// Does a line that was read, commits its batch to the keeper, which must be open, where it is an edit or a growth that is accepted, and
/// gives its reply, if it has one. An error leaves the cube and what the keeper holds as they were.
pub fn do_read<Q: Keeper>(
    alloc: Global,
    cube: &mut Cube<PolicyWord>,
    read: &Result<Line, Code>,
    keeper: &mut Q,
) -> Result<Option<Reply>, LineStop>
    requires within { IfOk read.now (IsLineOf cube.old.schema) }
    requires open { IsTrue (Q.tells keeper.old).is_open }
    ensures reply { IfOk result (λ reply. reply ≡ (step_from (weigh_of cube.old.policy) cube.old.schema (state_of cube.old) read.now).reply) }
    ensures state { OnOk result (cube.new ≡ cube_at cube.old (step_from (weigh_of cube.old.policy) cube.old.schema (state_of cube.old) read.now).state) }
    ensures cells { IfOk result (λ reply. IfSome reply (NamesCells cube.new.schema.dims)) }
    ensures same { OnErr result (cube.new ≡ cube.old) }
    ensures kept { OnOk result (Commits (batches_from (weigh_of cube.old.policy) cube.old.schema (state_of cube.old) read.now) (told_of Q.tells keeper.old) (told_of Q.tells keeper.new)) }
    ensures same_kept { OnErr result (told_of Q.tells keeper.new ≡ told_of Q.tells keeper.old) }
    ensures count { OnOk result ((Q.tells keeper.new).faults ≡ (Q.tells keeper.old).faults) }
    ensures stop { IfErr result (IsStopOf (batches_from (weigh_of cube.old.policy) cube.old.schema (state_of cube.old) read.now) (Q.tells keeper.old).faults (Q.tells keeper.new).faults) }
    ensures stays_open { StaysOpen (Q.tells keeper.old) (Q.tells keeper.new) }
{
    match read {
        Ok(said) => do_said(alloc, cube, said, keeper),
        Err(code) => Ok(Some(Reply::Refused(*code))),
    }
}

/// Does what a line says.
fn do_said<Q: Keeper>(
    alloc: Global,
    cube: &mut Cube<PolicyWord>,
    said: &Line,
    keeper: &mut Q,
) -> Result<Option<Reply>, LineStop>
    requires within { IsLineOf cube.old.schema said.now }
    requires open { IsTrue (Q.tells keeper.old).is_open }
    ensures reply { IfOk result (λ reply. reply ≡ (step_of (weigh_of cube.old.policy) cube.old.schema (state_of cube.old) said.now).reply) }
    ensures state { OnOk result (cube.new ≡ cube_at cube.old (step_of (weigh_of cube.old.policy) cube.old.schema (state_of cube.old) said.now).state) }
    ensures cells { IfOk result (λ reply. IfSome reply (NamesCells cube.new.schema.dims)) }
    ensures same { OnErr result (cube.new ≡ cube.old) }
    ensures kept { OnOk result (Commits (batches_of (weigh_of cube.old.policy) cube.old.schema (state_of cube.old) said.now) (told_of Q.tells keeper.old) (told_of Q.tells keeper.new)) }
    ensures same_kept { OnErr result (told_of Q.tells keeper.new ≡ told_of Q.tells keeper.old) }
    ensures count { OnOk result ((Q.tells keeper.new).faults ≡ (Q.tells keeper.old).faults) }
    ensures stop { IfErr result (IsStopOf (batches_of (weigh_of cube.old.policy) cube.old.schema (state_of cube.old) said.now) (Q.tells keeper.old).faults (Q.tells keeper.new).faults) }
    ensures stays_open { StaysOpen (Q.tells keeper.old) (Q.tells keeper.new) }
{
    match said {
        Line::Edit(edit) => do_edit(cube, edit, keeper),
        Line::Grow(grow) => do_growth(cube, grow, keeper),
        Line::Ask(question) => Ok(Some(reply(alloc, cube, question)?)),
        Line::Nothing => Ok(None),
    }
}

/// Does an edit: `ok` with the number of the facts that it refreshed, or why it is refused.
fn do_edit<Q: Keeper>(
    cube: &mut Cube<PolicyWord>,
    edit: &Edit,
    keeper: &mut Q,
) -> Result<Option<Reply>, LineStop>
    requires edit { IsEditOf (shape_of cube.old.schema) cube.old.schema.dims edit.now }
    requires open { IsTrue (Q.tells keeper.old).is_open }
    ensures reply { IfOk result (λ reply. reply ≡ (edit_step (weigh_of cube.old.policy) cube.old.schema (state_of cube.old) edit.now).reply) }
    ensures state { OnOk result (cube.new ≡ cube_at cube.old (edit_step (weigh_of cube.old.policy) cube.old.schema (state_of cube.old) edit.now).state) }
    ensures cells { IfOk result (λ reply. IfSome reply (NamesCells cube.new.schema.dims)) }
    ensures same { OnErr result (cube.new ≡ cube.old) }
    ensures kept { OnOk result (Commits (batches_of (weigh_of cube.old.policy) cube.old.schema (state_of cube.old) (line.Edit edit.now)) (told_of Q.tells keeper.old) (told_of Q.tells keeper.new)) }
    ensures same_kept { OnErr result (told_of Q.tells keeper.new ≡ told_of Q.tells keeper.old) }
    ensures count { OnOk result ((Q.tells keeper.new).faults ≡ (Q.tells keeper.old).faults) }
    ensures stop { IfErr result (IsStopOf (batches_of (weigh_of cube.old.policy) cube.old.schema (state_of cube.old) (line.Edit edit.now)) (Q.tells keeper.old).faults (Q.tells keeper.new).faults) }
    ensures stays_open { StaysOpen (Q.tells keeper.old) (Q.tells keeper.new) }
{
    do_edit_by::<Brand, Q>(cube, edit, keeper, Blank::new(1))
}

/// The same. Its steps are counted in a ledger of their own.
fn do_edit_by<L: Ledger, Q: Keeper>(
    cube: &mut Cube<PolicyWord>,
    edit: &Edit,
    keeper: &mut Q,
    blank: Blank,
) -> Result<Option<Reply>, LineStop>
    requires edit { IsEditOf (shape_of cube.old.schema) cube.old.schema.dims edit.now }
    requires open { IsTrue (Q.tells keeper.old).is_open }
    requires name { blank.name ≡ L.name }
    requires parts { blank.parts ≡ L.parts }
    requires some { 0 < L.parts }
    ensures reply { IfOk result (λ reply. reply ≡ (edit_step (weigh_of cube.old.policy) cube.old.schema (state_of cube.old) edit.now).reply) }
    ensures state { OnOk result (cube.new ≡ cube_at cube.old (edit_step (weigh_of cube.old.policy) cube.old.schema (state_of cube.old) edit.now).state) }
    ensures cells { IfOk result (λ reply. IfSome reply (NamesCells cube.new.schema.dims)) }
    ensures same { OnErr result (cube.new ≡ cube.old) }
    ensures kept { OnOk result (Commits (batches_of (weigh_of cube.old.policy) cube.old.schema (state_of cube.old) (line.Edit edit.now)) (told_of Q.tells keeper.old) (told_of Q.tells keeper.new)) }
    ensures same_kept { OnErr result (told_of Q.tells keeper.new ≡ told_of Q.tells keeper.old) }
    ensures count { OnOk result ((Q.tells keeper.new).faults ≡ (Q.tells keeper.old).faults) }
    ensures stop { IfErr result (IsStopOf (batches_of (weigh_of cube.old.policy) cube.old.schema (state_of cube.old) (line.Edit edit.now)) (Q.tells keeper.old).faults (Q.tells keeper.new).faults) }
    ensures stays_open { StaysOpen (Q.tells keeper.old) (Q.tells keeper.new) }
{
    let mut steps = Steps::<L>::new(blank);
    match cube.edit_and_count(edit, keeper, &mut steps) {
        Ok(refreshed) => Ok(Some(Reply::Done(refreshed))),
        Err(fault) => reply_to(fault),
    }
}

/// Does a growth: `ok` with the number of the facts whose allocation changed then, or why it is refused.
fn do_growth<Q: Keeper>(
    cube: &mut Cube<PolicyWord>,
    grow: &Grow,
    keeper: &mut Q,
) -> Result<Option<Reply>, LineStop>
    requires grow { IsGrowOf cube.old.schema.dims grow.now }
    requires open { IsTrue (Q.tells keeper.old).is_open }
    ensures reply { IfOk result (λ reply. reply ≡ (growth (weigh_of cube.old.policy) cube.old.schema (state_of cube.old) grow.now).reply) }
    ensures state { OnOk result (cube.new ≡ cube_at cube.old (growth (weigh_of cube.old.policy) cube.old.schema (state_of cube.old) grow.now).state) }
    ensures cells { IfOk result (λ reply. IfSome reply (NamesCells cube.new.schema.dims)) }
    ensures same { OnErr result (cube.new ≡ cube.old) }
    ensures kept { OnOk result (Commits (batches_of (weigh_of cube.old.policy) cube.old.schema (state_of cube.old) (line.Grow grow.now)) (told_of Q.tells keeper.old) (told_of Q.tells keeper.new)) }
    ensures same_kept { OnErr result (told_of Q.tells keeper.new ≡ told_of Q.tells keeper.old) }
    ensures count { OnOk result ((Q.tells keeper.new).faults ≡ (Q.tells keeper.old).faults) }
    ensures stop { IfErr result (IsStopOf (batches_of (weigh_of cube.old.policy) cube.old.schema (state_of cube.old) (line.Grow grow.now)) (Q.tells keeper.old).faults (Q.tells keeper.new).faults) }
    ensures stays_open { StaysOpen (Q.tells keeper.old) (Q.tells keeper.new) }
{
    match cube.grow(grow, keeper) {
        Ok(grown) => Ok(Some(Reply::Done(grown.refreshed.as_slice().len() as u64))),
        Err(fault) => reply_to(fault),
    }
}

/// The reply to an edit or a growth that a cube refuses, where that has one.
fn reply_to(fault: EditFault) -> Result<Option<Reply>, LineStop>
    ensures { result ≡ refusal_reply fault }
{
    match fault {
        EditFault::Code(code) => Ok(Some(Reply::Refused(code))),
        EditFault::Rows { .. } => Ok(Some(Reply::Refused(Code::Rows))),
        EditFault::KeepFault => Err(LineStop::KeepFault),
        EditFault::Memory => Err(LineStop::Memory),
    }
}

/// Whether a reply refuses its line.
pub fn is_refusal(reply: &Option<Reply>) -> bool
    ensures { (if result then 1 else 0) ≡ refusals_in reply.now }
{
    matches!(reply, Some(Reply::Refused(_)))
}
