//! Doing the lines of a script, one after the other.
ghost use Rattle.std.specs.Prelude.{◌≡◌, ℕ, ◌+◌, ◌<◌, ◌≤◌, ◌^◌, ◌++◌, ◌⊎◌, [], ◌∷◌, false, true, List, Option, length, Err, IfErr, IfOk, IfSome, IsTrue, OnErr, OnOk};
ghost use Rattle.std.specs.Io.KnownBytes.{Appends};
ghost use Rattle.std.specs.List.{concat};
ghost use Rattle.cube_base.specs.Outside.{Rose};
ghost use Rattle.schema_text.specs.Schema.{SchemaValue, weigh_of};
ghost use Rattle.fact_keeper.specs.Keeper.{StaysOpen};
ghost use Rattle.script_text.specs.LineOf.{IsLineOf};
ghost use Rattle.script_text.specs.Reply.{NamesCells};
ghost use Rattle.script_text.specs.ScriptLine.{line_of};
ghost use Rattle.script_run.specs.declared.break_off.BreakOff.TheVariants as break_off;
ghost use Rattle.script_run.specs.Kept.{Commits, HasKept, IsBehind, IsGatheredStop, KeptAt, batches_from, is_keep};
ghost use Rattle.script_run.specs.Progress.{AreFewReplies, BreaksOff, Done, HasDone, HasGathered};
ghost use Rattle.script_run.specs.Run.{State, cube_at, refusals_in, run, state_of, step_from, text_of};
ghost use Rattle.script_run.specs.Seen.{Told, seen_since, sink_seen, told_of};
ghost use Rattle.script_run.specs.Stop.{IsReadyFor, IsStopOf};

use crate::break_off::BreakOff;
use crate::outbox::Outbox;
use crate::script::{LineStop, do_read, is_edit, is_refusal};
use cube_base::{Code, Sink};
use cube_core::Cube;
use fact_keeper::Keeper;
use schema_text::PolicyWord;
use script_text::{Line, LineFault, Reply, read_line};
use std::alloc::Global;
use std::marker::Model;

/// A cube at work: the replies on their way, and how many lines are answered and refused.
#[derive(Drop)]
pub struct ScriptRun {
    alloc: Global,
    cube: Cube<PolicyWord>,
    // Whether the gathered replies are written before each edit and each growth.
    keeps: bool,
    outbox: Outbox,
    done: u64,
    refused: u64,
}

impl Model for ScriptRun {
    ghost use Rattle.std.specs.Prelude.{◌≤◌, length};
    ghost use Rattle.schema_text.specs.declared.word.PolicyWord.{PolicyWord};
    ghost use Rattle.script_run.specs.Progress.{Working};

    ghost Value = { Working PolicyWord };

    ghost view = { λ r. record { cube = r.cube; keeps = r.keeps; gathered = r.outbox; done = r.done; refused = r.refused } };

    ghost invariant = { λ r. (r.refused ≤ r.done) × (length r.outbox ≤ r.done) };
}

impl ScriptRun {
    /// No line is done yet. `keeps` says whether the gathered replies are written before each edit and each growth.
    pub fn new(alloc: Global, cube: Cube<PolicyWord>, keeps: bool) -> Self
        ensures { result ≡ record { cube = cube; keeps = keeps; gathered = []; done = 0; refused = 0 } }
    {
        ScriptRun {
            alloc,
            cube,
            keeps,
            outbox: Outbox::new(alloc),
            done: 0,
            refused: 0,
        }
    }

    /// Does a line, and writes the gathered replies where they are enough, and, where the keeper keeps, before an edit or a growth. Where
    /// there is no memory for its reply, the line is done nevertheless.
    pub fn do_line<K: Sink, Q: Keeper>(
        &mut self,
        line: &[u8],
        out: &mut K,
        keeper: &mut Q,
    ) -> Result<(), BreakOff>
        requires few { self.old.done < 2 ^ 62 }
        requires open { IsTrue (Q.tells keeper.old).is_open }
        ensures done { (schema : SchemaValue) (first : State) (lines : List (List ℕ)) (start : Option (List ℕ)) → HasDone (weigh_of self.old.cube.policy) schema first lines start (K.tells out.old).taken self.old
            → OnOk result (HasDone (weigh_of self.old.cube.policy) schema first (lines ++ line.now ∷ []) start (K.tells out.new).taken self.new) }
        ensures few_gathered { OnOk result (AreFewReplies self.new.gathered) }
        ensures policy { self.new.cube.policy ≡ self.old.cube.policy }
        ensures keeps { self.new.keeps ≡ self.old.keeps }
        ensures count { OnOk result ((K.tells out.new).faults ≡ (K.tells out.old).faults) }
        ensures broken { (schema : SchemaValue) (first : State) (lines : List (List ℕ)) (start : Option (List ℕ)) → HasDone (weigh_of self.old.cube.policy) schema first lines start (K.tells out.old).taken self.old
            → IfErr result (BreaksOff (run (weigh_of self.old.cube.policy) schema first (lines ++ line.now ∷ [])).replies (seen_since (sink_seen K.tells out.old out.new) start)) }
        ensures kept { (schema : SchemaValue) (first : State) (lines : List (List ℕ)) (start : Option (List ℕ)) (before : Told) → self.old.keeps ≡ true → HasDone (weigh_of self.old.cube.policy) schema first lines start (K.tells out.old).taken self.old
            → HasKept (weigh_of self.old.cube.policy) schema first lines before (told_of Q.tells keeper.old) self.old.gathered → OnOk result (HasKept (weigh_of self.old.cube.policy) schema first (lines ++ line.now ∷ []) before (told_of Q.tells keeper.new) self.new.gathered) }
        ensures stopped { (schema : SchemaValue) (first : State) (lines : List (List ℕ)) (start : Option (List ℕ)) (before : Told) → self.old.keeps ≡ true → HasDone (weigh_of self.old.cube.policy) schema first lines start (K.tells out.old).taken self.old
            → HasKept (weigh_of self.old.cube.policy) schema first lines before (told_of Q.tells keeper.old) self.old.gathered → IfErr result (KeptAt (weigh_of self.old.cube.policy) schema first (lines ++ line.now ∷ []) before (told_of Q.tells keeper.new)) }
        ensures no_fault { OnOk result ((Q.tells keeper.new).faults ≡ (Q.tells keeper.old).faults) }
        ensures cause { IfErr result (λ off. is_keep off ≡ true → Rose (Q.tells keeper.old).faults (Q.tells keeper.new).faults) }
        ensures other_cause { self.old.keeps ≡ true → IfErr result (λ off. is_keep off ≡ false → (Q.tells keeper.new).faults ≡ (Q.tells keeper.old).faults) }
        ensures ahead { OnOk result (self.old.done + length self.new.gathered ≤ self.new.done + length self.old.gathered) }
        ensures counted { OnOk result (self.new.done ≡ self.old.done + 1) }
        ensures behind { IfErr result (IsBehind self.old.done (length self.old.gathered)) }
        ensures stays_open { StaysOpen (Q.tells keeper.old) (Q.tells keeper.new) }
    {
        let read = match read_line(self.alloc, self.cube.schema(), line) {
            Ok(said) => Ok(said),
            // At once, since the calls below have large locals, which are cleared when they begin.
            Err(LineFault::Code(code)) => return self.refuse(code, out),
            Err(LineFault::Memory) => return Err(self.give_up(out, 0)),
        };
        if let Err(off) = self.make_ready(&read, out) {
            drop(read);
            return Err(off);
        }
        let done = self.do_read(&read, out, keeper);
        drop(read);
        done
    }

    /// Writes the gathered replies, and says how many lines are refused.
    pub fn finish<K: Sink>(&mut self, out: &mut K) -> Result<u64, BreakOff>
        ensures done { (schema : SchemaValue) (first : State) (lines : List (List ℕ)) (start : Option (List ℕ)) → HasDone (weigh_of self.old.cube.policy) schema first lines start (K.tells out.old).taken self.old
            → IfOk result (Done (run (weigh_of self.old.cube.policy) schema first lines) (seen_since (sink_seen K.tells out.old out.new) start)) }
        ensures broken { (schema : SchemaValue) (first : State) (lines : List (List ℕ)) (start : Option (List ℕ)) → HasDone (weigh_of self.old.cube.policy) schema first lines start (K.tells out.old).taken self.old
            → IfErr result (BreaksOff (run (weigh_of self.old.cube.policy) schema first lines).replies (seen_since (sink_seen K.tells out.old out.new) start)) }
        ensures stop { IfErr result (IsGatheredStop self.old.done (length self.old.gathered)) }
    {
        self.send(out)?;
        Ok(self.refused)
    }

    // Writes the gathered replies before an edit or a growth, where the keeper keeps.
    fn make_ready<K: Sink>(
        &mut self,
        read: &Result<Line, Code>,
        out: &mut K,
    ) -> Result<(), BreakOff>
        ensures done { (schema : SchemaValue) (first : State) (lines : List (List ℕ)) (start : Option (List ℕ)) → HasDone (weigh_of self.old.cube.policy) schema first lines start (K.tells out.old).taken self.old → OnOk result (HasDone (weigh_of self.old.cube.policy) schema first lines start (K.tells out.new).taken self.new) }
        ensures ready { self.old.keeps ≡ true → OnOk result (IsReadyFor self.new.gathered read.now) }
        ensures fewer { OnOk result (length self.new.gathered ≤ length self.old.gathered) }
        ensures same { OnOk result (self.new ≡ record self.old { gathered = self.new.gathered }) }
        ensures policy { self.new.cube.policy ≡ self.old.cube.policy }
        ensures keeps { self.new.keeps ≡ self.old.keeps }
        ensures count { OnOk result ((K.tells out.new).faults ≡ (K.tells out.old).faults) }
        ensures broken { (schema : SchemaValue) (first : State) (lines : List (List ℕ)) (start : Option (List ℕ)) → HasDone (weigh_of self.old.cube.policy) schema first lines start (K.tells out.old).taken self.old → IfErr result (BreaksOff (run (weigh_of self.old.cube.policy) schema first lines).replies (seen_since (sink_seen K.tells out.old out.new) start)) }
        ensures stop { IfErr result (IsGatheredStop self.old.done (length self.old.gathered)) }
    {
        if self.keeps && is_edit(read) {
            return self.send(out);
        }
        Ok(())
    }

    // Does a line that was read, and answers it.
    fn do_read<K: Sink, Q: Keeper>(
        &mut self,
        read: &Result<Line, Code>,
        out: &mut K,
        keeper: &mut Q,
    ) -> Result<(), BreakOff>
        requires few { self.old.done < 2 ^ 62 }
        requires within { IfOk read.now (IsLineOf self.old.cube.schema) }
        requires open { IsTrue (Q.tells keeper.old).is_open }
        ensures done { (schema : SchemaValue) (first : State) (lines : List (List ℕ)) (start : Option (List ℕ)) (line : List ℕ) → HasDone (weigh_of self.old.cube.policy) schema first lines start (K.tells out.old).taken self.old → line_of self.old.cube.schema line ≡ read.now
            → OnOk result (HasDone (weigh_of self.old.cube.policy) schema first (lines ++ line ∷ []) start (K.tells out.new).taken self.new) }
        ensures few_gathered { OnOk result (AreFewReplies self.new.gathered) }
        ensures policy { self.new.cube.policy ≡ self.old.cube.policy }
        ensures keeps { self.new.keeps ≡ self.old.keeps }
        ensures count { OnOk result ((K.tells out.new).faults ≡ (K.tells out.old).faults) }
        ensures broken { (schema : SchemaValue) (first : State) (lines : List (List ℕ)) (start : Option (List ℕ)) (line : List ℕ) → HasDone (weigh_of self.old.cube.policy) schema first lines start (K.tells out.old).taken self.old → line_of self.old.cube.schema line ≡ read.now
            → IfErr result (BreaksOff (run (weigh_of self.old.cube.policy) schema first (lines ++ line ∷ [])).replies (seen_since (sink_seen K.tells out.old out.new) start)) }
        ensures kept { (schema : SchemaValue) (first : State) (lines : List (List ℕ)) (start : Option (List ℕ)) (line : List ℕ) (before : Told) → IsReadyFor self.old.gathered read.now → HasDone (weigh_of self.old.cube.policy) schema first lines start (K.tells out.old).taken self.old → line_of self.old.cube.schema line ≡ read.now
            → HasKept (weigh_of self.old.cube.policy) schema first lines before (told_of Q.tells keeper.old) self.old.gathered → OnOk result (HasKept (weigh_of self.old.cube.policy) schema first (lines ++ line ∷ []) before (told_of Q.tells keeper.new) self.new.gathered) }
        ensures stopped { (schema : SchemaValue) (first : State) (lines : List (List ℕ)) (start : Option (List ℕ)) (line : List ℕ) (before : Told) → IsReadyFor self.old.gathered read.now → HasDone (weigh_of self.old.cube.policy) schema first lines start (K.tells out.old).taken self.old → line_of self.old.cube.schema line ≡ read.now
            → HasKept (weigh_of self.old.cube.policy) schema first lines before (told_of Q.tells keeper.old) self.old.gathered → IfErr result (KeptAt (weigh_of self.old.cube.policy) schema first (lines ++ line ∷ []) before (told_of Q.tells keeper.new)) }
        ensures no_fault { OnOk result ((Q.tells keeper.new).faults ≡ (Q.tells keeper.old).faults) }
        ensures cause { IfErr result (λ off. is_keep off ≡ true → Rose (Q.tells keeper.old).faults (Q.tells keeper.new).faults) }
        ensures other_cause { IsReadyFor self.old.gathered read.now → IfErr result (λ off. is_keep off ≡ false → (Q.tells keeper.new).faults ≡ (Q.tells keeper.old).faults) }
        ensures ahead { OnOk result (self.old.done + length self.new.gathered ≤ self.new.done + length self.old.gathered) }
        ensures counted { OnOk result (self.new.done ≡ self.old.done + 1) }
        ensures behind { IfErr result (IsBehind self.old.done (length self.old.gathered)) }
        ensures stays_open { StaysOpen (Q.tells keeper.old) (Q.tells keeper.new) }
    {
        match self.do_on_cube(read, keeper) {
            Ok(reply) => {
                let answered = self.answer(&reply, out);
                drop(reply);
                answered
            }
            Err(LineStop::KeepFault) => Err(self.keep_fault(out)),
            Err(LineStop::Memory) => Err(self.give_up(out, 0)),
        }
    }

    // Answers a line that is refused as it is read. Nothing is done on the cube, and the keeper is not called.
    fn refuse<K: Sink>(&mut self, code: Code, out: &mut K) -> Result<(), BreakOff>
        requires few { self.old.done < 2 ^ 62 }
        ensures done { (schema : SchemaValue) (first : State) (lines : List (List ℕ)) (start : Option (List ℕ)) (line : List ℕ) → HasDone (weigh_of self.old.cube.policy) schema first lines start (K.tells out.old).taken self.old → line_of self.old.cube.schema line ≡ Err code
            → OnOk result (HasDone (weigh_of self.old.cube.policy) schema first (lines ++ line ∷ []) start (K.tells out.new).taken self.new) }
        ensures few_gathered { OnOk result (AreFewReplies self.new.gathered) }
        ensures policy { self.new.cube.policy ≡ self.old.cube.policy }
        ensures keeps { self.new.keeps ≡ self.old.keeps }
        ensures count { OnOk result ((K.tells out.new).faults ≡ (K.tells out.old).faults) }
        ensures broken { (schema : SchemaValue) (first : State) (lines : List (List ℕ)) (start : Option (List ℕ)) (line : List ℕ) → HasDone (weigh_of self.old.cube.policy) schema first lines start (K.tells out.old).taken self.old → line_of self.old.cube.schema line ≡ Err code
            → IfErr result (BreaksOff (run (weigh_of self.old.cube.policy) schema first (lines ++ line ∷ [])).replies (seen_since (sink_seen K.tells out.old out.new) start)) }
        ensures kept { (schema : SchemaValue) (first : State) (lines : List (List ℕ)) (start : Option (List ℕ)) (line : List ℕ) (before now : Told) → HasDone (weigh_of self.old.cube.policy) schema first lines start (K.tells out.old).taken self.old → line_of self.old.cube.schema line ≡ Err code
            → HasKept (weigh_of self.old.cube.policy) schema first lines before now self.old.gathered → OnOk result (HasKept (weigh_of self.old.cube.policy) schema first (lines ++ line ∷ []) before now self.new.gathered) }
        ensures stopped { (schema : SchemaValue) (first : State) (lines : List (List ℕ)) (start : Option (List ℕ)) (line : List ℕ) (before now : Told) → HasDone (weigh_of self.old.cube.policy) schema first lines start (K.tells out.old).taken self.old → line_of self.old.cube.schema line ≡ Err code
            → HasKept (weigh_of self.old.cube.policy) schema first lines before now self.old.gathered → IfErr result (KeptAt (weigh_of self.old.cube.policy) schema first (lines ++ line ∷ []) before now) }
        ensures no_keep { IfErr result (λ off. is_keep off ≡ false) }
        ensures ahead { OnOk result (self.old.done + length self.new.gathered ≤ self.new.done + length self.old.gathered) }
        ensures counted { OnOk result (self.new.done ≡ self.old.done + 1) }
        ensures behind { IfErr result (IsBehind self.old.done (length self.old.gathered)) }
    {
        let reply = Some(Reply::Refused(code));
        self.answer(&reply, out)
    }

    // Does a line that was read on the cube, and gives its reply.
    fn do_on_cube<Q: Keeper>(
        &mut self,
        read: &Result<Line, Code>,
        keeper: &mut Q,
    ) -> Result<Option<Reply>, LineStop>
        requires within { IfOk read.now (IsLineOf self.old.cube.schema) }
        requires open { IsTrue (Q.tells keeper.old).is_open }
        ensures reply { IfOk result (λ reply. reply ≡ (step_from (weigh_of self.old.cube.policy) self.old.cube.schema (state_of self.old.cube) read.now).reply) }
        ensures state { OnOk result (self.new ≡ record self.old { cube = cube_at self.old.cube (step_from (weigh_of self.old.cube.policy) self.old.cube.schema (state_of self.old.cube) read.now).state }) }
        ensures cells { IfOk result (λ reply. IfSome reply (NamesCells self.new.cube.schema.dims)) }
        ensures same { OnErr result (self.new ≡ self.old) }
        ensures kept { OnOk result (Commits (batches_from (weigh_of self.old.cube.policy) self.old.cube.schema (state_of self.old.cube) read.now) (told_of Q.tells keeper.old) (told_of Q.tells keeper.new)) }
        ensures same_kept { OnErr result (told_of Q.tells keeper.new ≡ told_of Q.tells keeper.old) }
        ensures count { OnOk result ((Q.tells keeper.new).faults ≡ (Q.tells keeper.old).faults) }
        ensures stop { IfErr result (IsStopOf (batches_from (weigh_of self.old.cube.policy) self.old.cube.schema (state_of self.old.cube) read.now) (Q.tells keeper.old).faults (Q.tells keeper.new).faults) }
        ensures stays_open { StaysOpen (Q.tells keeper.old) (Q.tells keeper.new) }
    {
        do_read(self.alloc, &mut self.cube, read, keeper)
    }

    // Gathers the reply to a line that is done, and writes the gathered replies where they are enough.
    fn answer<K: Sink>(&mut self, reply: &Option<Reply>, out: &mut K) -> Result<(), BreakOff>
        requires few { self.old.done < 2 ^ 62 }
        requires cells { IfSome reply.now (NamesCells self.old.cube.schema.dims) }
        ensures gathered { (replies : List (List ℕ)) (start : Option (List ℕ)) → HasGathered replies start (K.tells out.old).taken self.old.gathered
            → OnOk result (HasGathered (replies ++ text_of self.old.cube.schema.dims reply.now ∷ []) start (K.tells out.new).taken self.new.gathered) }
        ensures answered { OnOk result (self.new ≡ record self.old { gathered = self.new.gathered; done = self.old.done + 1; refused = self.old.refused + refusals_in reply.now }) }
        ensures one_more { OnOk result (length self.new.gathered ≤ length self.old.gathered + 1) }
        ensures few_gathered { OnOk result (AreFewReplies self.new.gathered) }
        ensures policy { self.new.cube.policy ≡ self.old.cube.policy }
        ensures keeps { self.new.keeps ≡ self.old.keeps }
        ensures count { OnOk result ((K.tells out.new).faults ≡ (K.tells out.old).faults) }
        ensures broken { (replies : List (List ℕ)) (start : Option (List ℕ)) → HasGathered replies start (K.tells out.old).taken self.old.gathered → self.old.done ≡ length replies
            → IfErr result (BreaksOff (replies ++ text_of self.old.cube.schema.dims reply.now ∷ []) (seen_since (sink_seen K.tells out.old out.new) start)) }
        ensures stop { IfErr result (IsGatheredStop (self.old.done + 1) (length self.old.gathered + 1)) }
    {
        if self.outbox.gather(self.cube.schema(), reply).is_err() {
            return Err(self.give_up(out, 1));
        }
        self.done += 1;
        self.refused += u64::from(is_refusal(reply));
        if self.outbox.is_full() {
            return self.send(out);
        }
        Ok(())
    }

    /// How many lines are answered.
    pub fn lines_done(&self) -> u64
        ensures { result ≡ self.now.done }
    {
        self.done
    }

    /// Writes the gathered replies.
    pub fn send<K: Sink>(&mut self, out: &mut K) -> Result<(), BreakOff>
        ensures all { (replies : List (List ℕ)) (start : Option (List ℕ)) → HasGathered replies start (K.tells out.old).taken self.old.gathered → OnOk result (Appends start (K.tells out.new).taken (concat replies)) }
        ensures empty { OnOk result (self.new ≡ record self.old { gathered = [] }) }
        ensures count { OnOk result ((K.tells out.new).faults ≡ (K.tells out.old).faults) }
        ensures policy { self.new.cube.policy ≡ self.old.cube.policy }
        ensures keeps { self.new.keeps ≡ self.old.keeps }
        ensures broken { (replies : List (List ℕ)) (start : Option (List ℕ)) → HasGathered replies start (K.tells out.old).taken self.old.gathered → self.old.done ≡ length replies
            → IfErr result (BreaksOff replies (seen_since (sink_seen K.tells out.old out.new) start)) }
        ensures stop { IfErr result (IsGatheredStop self.old.done (length self.old.gathered)) }
    {
        let before = self.done - self.outbox.len();
        if let Err(cut) = self.outbox.send(out) {
            return Err(BreakOff::at(cut.error, before + cut.whole + 1));
        }
        Ok(())
    }

    // Writes the gathered replies, and tells that it ran out of memory when so many lines more than those that are answered were done:
    // none, or one, whose reply could not be gathered.
    fn give_up<K: Sink>(&mut self, out: &mut K, more: u64) -> BreakOff
        requires { self.old.done + more < 2 ^ 64 }
        ensures policy { self.new.cube.policy ≡ self.old.cube.policy }
        ensures keeps { self.new.keeps ≡ self.old.keeps }
        ensures broken { (replies later : List (List ℕ)) (start : Option (List ℕ)) → HasGathered replies start (K.tells out.old).taken self.old.gathered → self.old.done ≡ length replies
            → length later ≤ 1 → more ≡ length later → BreaksOff (replies ++ later) (seen_since (sink_seen K.tells out.old out.new) start) result }
        ensures stop { (result ≡ break_off.Memory (self.old.done + more)) ⊎ IsGatheredStop self.old.done (length self.old.gathered) result }
    {
        if let Err(off) = self.send(out) {
            return off;
        }
        BreakOff::Memory {
            done: self.done + more,
        }
    }

    // Writes the gathered replies, and tells that the keeper failed after the lines that are done.
    fn keep_fault<K: Sink>(&mut self, out: &mut K) -> BreakOff
        ensures policy { self.new.cube.policy ≡ self.old.cube.policy }
        ensures keeps { self.new.keeps ≡ self.old.keeps }
        ensures broken { (replies : List (List ℕ)) (start : Option (List ℕ)) → HasGathered replies start (K.tells out.old).taken self.old.gathered → self.old.done ≡ length replies
            → BreaksOff replies (seen_since (sink_seen K.tells out.old out.new) start) result }
        ensures stop { (result ≡ break_off.Keep self.old.done) ⊎ IsGatheredStop self.old.done (length self.old.gathered) result }
    {
        if let Err(off) = self.send(out) {
            return off;
        }
        BreakOff::Keep { done: self.done }
    }
}
