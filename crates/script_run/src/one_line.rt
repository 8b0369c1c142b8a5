//! Doing one line alone.
ghost use Rattle.std.specs.Prelude.{◌≡◌, ◌<◌, ◌^◌, ◌∷◌, [], false, true, IfErr, IfOk, IsTrue, OnOk};
ghost use Rattle.schema_text.specs.Schema.{weigh_of};
ghost use Rattle.fact_keeper.specs.Keeper.{StaysOpen};
ghost use Rattle.script_run.specs.Kept.{Commits, KeptAt, batches, is_keep};
ghost use Rattle.script_run.specs.Progress.{BreaksOff, Done};
ghost use Rattle.script_run.specs.Run.{run, state_of};
ghost use Rattle.script_run.specs.Seen.{KeepFailed, NoKeepFault, keeper_seen, sink_seen, told_of};
ghost use Rattle.script_run.specs.StreamTurn.{EndsLines};

use crate::BreakOff;
use crate::script_run::ScriptRun;
use cube_base::Sink;
use cube_core::Cube;
use fact_keeper::Keeper;
use schema_text::PolicyWord;
use std::alloc::Global;

/// Does a line alone on a cube, commits its batch to the keeper, which must be open, where it is an accepted edit or growth, writes its
/// reply, and says how many lines are refused: none or this one. No byte of it ends the line, an LF neither.
pub fn run_line<K: Sink, Q: Keeper>(
    alloc: Global,
    cube: Cube<PolicyWord>,
    line: &[u8],
    out: &mut K,
    keeper: &mut Q,
) -> Result<u64, BreakOff>
    requires { IsTrue (Q.tells keeper.old).is_open }
    ensures done { IfOk result (Done (run (weigh_of cube.policy) cube.schema (state_of cube) (line.now ∷ [])) (sink_seen K.tells out.old out.new)) }
    ensures broken { IfErr result (BreaksOff (run (weigh_of cube.policy) cube.schema (state_of cube) (line.now ∷ [])).replies (sink_seen K.tells out.old out.new)) }
    ensures kept { OnOk result (Commits (batches (weigh_of cube.policy) cube.schema (state_of cube) (line.now ∷ [])) (told_of Q.tells keeper.old) (told_of Q.tells keeper.new)) }
    ensures stopped { IfErr result (KeptAt (weigh_of cube.policy) cube.schema (state_of cube) (line.now ∷ []) (told_of Q.tells keeper.old) (told_of Q.tells keeper.new)) }
    ensures count { OnOk result (NoKeepFault (keeper_seen Q.tells keeper.old keeper.new)) }
    ensures cause { IfErr result (λ off. is_keep off ≡ true → KeepFailed (keeper_seen Q.tells keeper.old keeper.new)) }
    ensures other_cause { IfErr result (λ off. is_keep off ≡ false → NoKeepFault (keeper_seen Q.tells keeper.old keeper.new)) }
    ensures stays_open { StaysOpen (Q.tells keeper.old) (Q.tells keeper.new) }
{
    let mut run = ScriptRun::new(alloc, cube, true);
    let ended = end_line(&mut run, line, out, keeper);
    drop(run);
    ended
}

/// Does a line, the last of a script, writes the replies, and says how many lines are refused.
fn end_line<K: Sink, Q: Keeper>(
    run: &mut ScriptRun,
    line: &[u8],
    out: &mut K,
    keeper: &mut Q,
) -> Result<u64, BreakOff>
    requires few { run.old.done < 2 ^ 62 }
    requires open { IsTrue (Q.tells keeper.old).is_open }
    ensures ends { EndsLines weigh_of (line.now ∷ []) run.old (sink_seen K.tells out.old out.new) (keeper_seen Q.tells keeper.old keeper.new) result }
    ensures stays_open { StaysOpen (Q.tells keeper.old) (Q.tells keeper.new) }
{
    run.do_line(line, out, keeper)?;
    run.finish(out)
}
