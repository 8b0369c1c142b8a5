//! A drill that is computed from the definitions. The function does nothing: the law is its contract.
ghost use Rattle.std.specs.Prelude.{◌≡◌, [], ◌∷◌, map};
ghost use Rattle.cube_model.specs.declared.edit.Edit.TheVariants.{Put};
ghost use Rattle.drill_run.specs.Doing.{drill_of};
ghost use Rattle.drill_run.specs.Edits.{edits_of};
ghost use Rattle.drill_run.specs.Examples.{fact_of_one, line_of_one, tally_of_one};
ghost use Rattle.drill_run.specs.Numbers.{drawn};
ghost use Rattle.drill_run.specs.Summary.{summary_of};

/// The drill of 1, worked out by hand: the numbers that are drawn, the one fact that they make, what its edit counts, and the line.
pub fn worked_drill()
    ensures draws { map (drawn 1) (1 ∷ 2 ∷ 3 ∷ 4 ∷ []) ≡ 16838 ∷ 5758 ∷ 10113 ∷ 17515 ∷ [] }
    ensures edits { edits_of 1 ≡ Put fact_of_one ∷ [] }
    ensures tally { drill_of 1 ≡ tally_of_one }
    ensures line { summary_of 1 ≡ line_of_one }
{}
