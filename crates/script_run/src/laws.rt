//! Laws of what lines do. The functions do nothing: each law is the contract.
ghost use Rattle.std.specs.Prelude.{◌≡◌, ℕ, List, map};
ghost use Rattle.cube_model.specs.declared.statistic.CellStat.{CellStat};
ghost use Rattle.text_lines.specs.Pieces.{front};
ghost use Rattle.schema_text.specs.Schema.{SchemaValue};
ghost use Rattle.script_run.specs.Kept.{batches};
ghost use Rattle.script_run.specs.Run.{RunsInParts, State, run};

/// The state after some lines is that of the run of these lines, and the other lines are done from there.
pub fn run_in_two_parts()
    ensures { (weigh : CellStat → ℕ) (schema : SchemaValue) (first : State) (lines more : List (List ℕ)) → RunsInParts weigh schema first lines more }
{}

/// Lines do what their first 4,097 bytes do, and commit what these commit.
pub fn lines_do_what_their_fronts_do()
    ensures outcome { (weigh : CellStat → ℕ) (schema : SchemaValue) (first : State) (lines : List (List ℕ)) → run weigh schema first (map front lines) ≡ run weigh schema first lines }
    ensures batches { (weigh : CellStat → ℕ) (schema : SchemaValue) (first : State) (lines : List (List ℕ)) → batches weigh schema first (map front lines) ≡ batches weigh schema first lines }
{}
