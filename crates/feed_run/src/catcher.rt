//! A keeper that catches what a line commits, so that the batch of a line can be written.
ghost use Rattle.std.specs.Prelude.{◌≡◌, ◌++◌, ◌∷◌, [], true, IfErr, IfNone, IfOk, IfSome, Ok, OnErr, OnOk};
ghost use Rattle.std.specs.Option.{option_to_list};
ghost use Rattle.cube_base.specs.Outside.{next_count};
ghost use Rattle.fact_keeper.specs.Batch.{empty_content};
ghost use Rattle.fact_keeper.specs.declared.keeper.KeepError.TheVariants as keep_error;
ghost use Rattle.schema_text.specs.Schema.{weigh_of};
ghost use Rattle.script_text.specs.LineOf.{IsLineOf};
ghost use Rattle.script_text.specs.Reply.{NamesCells};
ghost use Rattle.script_run.specs.Kept.{batches_from};
ghost use Rattle.script_run.specs.Run.{cube_at, state_of, step_from};

use crate::copies::copy_batch;
use cube_base::{Code, Memory};
use cube_core::Cube;
use fact_keeper::{Batch, KeepError, Keeper, Stored};
use schema_text::PolicyWord;
use script_run::{LineStop, do_read};
use script_text::{Line, Reply};
use std::alloc::Global;
use std::marker::Model;

/// A keeper that is open from the start and has no fault. It tells no content and no name, and as its journal the batches that it caught.
#[derive(Drop)]
pub struct BatchCatcher {
    alloc: Global,
    caught: Vec<Batch>,
    loads: u64,
}

impl Model for BatchCatcher {
    ghost use Rattle.feed_run.specs.Catching.{Catching};

    ghost Value = { Catching };

    ghost view = { λ c. record { caught = c.caught.items; loads = c.loads } };
}

impl BatchCatcher {
    /// A keeper that caught no batch and counts no load. It takes no memory.
    pub fn new(alloc: Global) -> Self
        ensures { result ≡ record { caught = []; loads = 0 } }
    {
        BatchCatcher {
            alloc,
            caught: Vec::new(alloc),
            loads: 0,
        }
    }

    /// Gives the batch that was caught last, if one was.
    pub fn take(&mut self) -> Option<Batch>
        ensures taken { self.old.caught ≡ self.new.caught ++ option_to_list result }
        ensures none { IfNone result (self.old.caught ≡ []) }
        ensures loads { self.new.loads ≡ self.old.loads }
    {
        self.caught.pop()
    }
}

impl Keeper for BatchCatcher {
    ghost use Rattle.std.specs.Prelude.{None, Some};

    ghost tells = { λ k. record { content = None; journal = Some k.caught; name = None; loads = k.loads; is_open = true; faults = 0 } };

    fn keeps(&self) -> bool
        ensures all { result ≡ true }
    {
        true
    }

    /// The empty content, always. It takes no memory.
    fn load(&mut self, alloc: Global, _name: &str) -> Result<Stored, KeepError>
        ensures given { result ≡ Ok empty_content }
        ensures loaded { self.new ≡ record self.old { loads = next_count self.old.loads } }
    {
        self.loads = self.loads.saturating_add(1);
        Ok(Stored::empty(alloc))
    }

    /// Catches a copy of the batch, which shares its rows. The only error is running out of memory.
    fn commit(&mut self, batch: &Batch) -> Result<(), KeepError>
        ensures caught { OnOk result (self.new ≡ record self.old { caught = self.old.caught ++ batch.now ∷ [] }) }
        ensures same { OnErr result (self.new ≡ self.old) }
        ensures cause { IfErr result (λ error. error ≡ keep_error.Memory) }
    {
        let copy = copy_batch(self.alloc, batch)?;
        self.caught.push(copy)?;
        Ok(())
    }
}

/// What a line did that is done.
#[derive(Drop)]
pub struct LineDone {
    /// Its reply, if it has one.
    pub reply: Option<Reply>,
    /// What it commits, where it is an edit or a growth that is accepted.
    pub batch: Option<Batch>,
}

/// Does a line that was read on a cube, and gives its reply and what it commits. The only error is running out of memory, which leaves
/// the cube as it was.
pub fn do_caught(
    alloc: Global,
    cube: &mut Cube<PolicyWord>,
    read: &Result<Line, Code>,
) -> Result<LineDone, Memory>
    requires { IfOk read.now (IsLineOf cube.old.schema) }
    ensures reply { IfOk result (λ done. done.reply ≡ (step_from (weigh_of cube.old.policy) cube.old.schema (state_of cube.old) read.now).reply) }
    ensures batch { IfOk result (λ done. option_to_list done.batch ≡ batches_from (weigh_of cube.old.policy) cube.old.schema (state_of cube.old) read.now) }
    ensures state { OnOk result (cube.new ≡ cube_at cube.old (step_from (weigh_of cube.old.policy) cube.old.schema (state_of cube.old) read.now).state) }
    ensures cells { IfOk result (λ done. IfSome done.reply (NamesCells cube.new.schema.dims)) }
    ensures same { OnErr result (cube.new ≡ cube.old) }
{
    let mut catcher = BatchCatcher::new(alloc);
    match do_read(alloc, cube, read, &mut catcher) {
        Ok(reply) => Ok(LineDone {
            reply,
            batch: catcher.take(),
        }),
        Err(_) => Err(Memory),
    }
}
