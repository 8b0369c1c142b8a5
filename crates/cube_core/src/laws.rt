//! Examples that are computed from the definitions. The functions do nothing: the laws are their contracts.
ghost use Rattle.std.specs.Prelude.{◌≡◌, [], ◌∷◌, None, Some, map, pos};
ghost use Rattle.cube_base.specs.declared.code.Code.TheVariants as code;
ghost use Rattle.cube_model.specs.declared.edit.Edit.TheVariants.{Change, Put, Withdraw};
ghost use Rattle.cube_model.specs.Allocation.{allocation_of, by_count, extended};
ghost use Rattle.cube_model.specs.Answer.{answer};
ghost use Rattle.cube_model.specs.Difference.{refreshed};
ghost use Rattle.cube_model.specs.Facts.{after};
ghost use Rattle.edit_plan.specs.Bound.{step_limit};
ghost use Rattle.edit_plan.specs.Plan.{kept_fact};
ghost use Rattle.edit_plan.specs.Whole.{difference_with};
ghost use Rattle.fact_records.specs.Examples.{number_and_parts, one_number};
ghost use Rattle.fact_records.specs.Judge.{judge};
ghost use Rattle.alloc_rows.specs.Examples.{fact_at, four_facts, two_dims};
ghost use Rattle.world_law.specs.Worlds.{total, worlds};
ghost use Rattle.cube_core.specs.Examples.{below_0, by_value, fact_on_first_cell, four_rows, one_weight, row_alone, rows_as_kept, term_with, whole_parts, wrong_parts};

/// Rows, answers, refreshed facts and refusals that were worked out by hand. A fact somewhere in three cells is spread over
/// the two where facts lie, as the counts say, and evenly over all three where no fact lies. So its allocation changes
/// once one of these facts moves or is withdrawn. In one of its two worlds it stands where two others do, and in one it
/// does not. A move between two cells that it covers, in two dimensions of depth 2, takes at most 2 * 9 + 2 * 2 + 2
/// steps. New facts are kept in order of their ids, whatever the order of the file, and so are their rows with those of
/// the facts that they refresh.
pub fn worked_cube()
    ensures spread { allocation_of 4 four_rows ≡ Some (record { den = 3; rows = (0, 2) ∷ (4, 1) ∷ [] }) }
    ensures precise { allocation_of 3 four_rows ≡ Some (record { den = 1; rows = (4, 1) ∷ [] }) }
    ensures even { allocation_of 4 row_alone ≡ Some (record { den = 3; rows = (0, 1) ∷ (4, 1) ∷ (8, 1) ∷ [] }) }
    ensures none { allocation_of 5 four_rows ≡ None }
    ensures cell { answer 1 two_dims four_rows (2 ∷ 2 ∷ []) ≡ term_with 1 2 400 ∷ term_with 3 2 1200 ∷ [] }
    ensures neighbour { answer 1 two_dims four_rows (3 ∷ 2 ∷ []) ≡ term_with 1 1 50 ∷ term_with 3 1 600 ∷ [] }
    ensures region { answer 1 two_dims four_rows (1 ∷ 0 ∷ []) ≡ term_with 1 3 450 ∷ term_with 3 3 1800 ∷ [] }
    ensures nothing { answer 1 two_dims four_rows (4 ∷ 2 ∷ []) ≡ [] }
    ensures worlds { map (λ world. world.weight) (worlds four_rows) ≡ 2 ∷ 1 ∷ [] }
    ensures counted { total two_dims (2 ∷ 2 ∷ []) 0 four_rows ≡ pos 8 }
    ensures summed { total two_dims (2 ∷ 2 ∷ []) 1 four_rows ≡ pos 2400 }
    ensures replaced { refreshed by_count two_dims four_facts (after (Change (fact_at 3 (4 ∷ 2 ∷ []) 50)) four_facts) ≡ 3 ∷ 4 ∷ [] }
    ensures unchanged { refreshed by_count two_dims four_facts (after (Change (fact_at 2 (2 ∷ 2 ∷ []) 301)) four_facts) ≡ [] }
    ensures withdrawn { refreshed by_count two_dims four_facts (after (Withdraw 1) four_facts) ≡ 4 ∷ [] }
    ensures put { refreshed by_count two_dims four_facts (after (Put (fact_at 5 (4 ∷ 2 ∷ []) 1)) four_facts) ≡ 4 ∷ 5 ∷ [] }
    ensures imported { difference_with by_count two_dims (fact_at 6 (4 ∷ 2 ∷ []) 1 ∷ fact_at 5 (2 ∷ 2 ∷ []) 7 ∷ []) four_facts
        ≡ record {
          schema = None;
          gone = [];
          facts = kept_fact (fact_at 5 (2 ∷ 2 ∷ []) 7) ∷ kept_fact (fact_at 6 (4 ∷ 2 ∷ []) 1) ∷ [];
          rows = rows_as_kept 4 5 ((0, 3) ∷ (4, 1) ∷ (8, 1) ∷ []) ∷ rows_as_kept 5 1 ((0, 1) ∷ []) ∷ rows_as_kept 6 1 ((8, 1) ∷ []) ∷ [];
        } }
    ensures accepted { judge by_count one_number two_dims (Put (fact_at 5 (0 ∷ 0 ∷ []) 7)) four_facts ≡ None }
    ensures moved { judge by_count one_number two_dims (Change (fact_at 3 (4 ∷ 2 ∷ []) 50)) four_facts ≡ None }
    ensures large { judge by_count one_number two_dims (Put (fact_at 4 (0 ∷ 0 ∷ []) 1000000000001)) four_facts ≡ Some code.Value }
    ensures exists { judge by_count one_number two_dims (Put (fact_at 4 (0 ∷ 0 ∷ []) 7)) four_facts ≡ Some code.Exists }
    ensures not_there { judge by_count one_number two_dims (Change (fact_at 5 (2 ∷ 2 ∷ []) 1)) four_facts ≡ Some code.Missing }
    ensures missing { judge by_count one_number two_dims (Withdraw 5) four_facts ≡ Some code.Missing }
    ensures parts { judge by_count number_and_parts two_dims (Put (fact_on_first_cell 5 wrong_parts)) four_facts ≡ Some code.Parts }
    ensures whole { judge by_count number_and_parts two_dims (Put (fact_on_first_cell 5 whole_parts)) four_facts ≡ None }
    ensures steps { step_limit by_count two_dims (Change (fact_at 3 (4 ∷ 2 ∷ []) 50)) four_facts ≡ 24 }
{}

/// The same facts where cells weigh by the sum of their values, of precise facts alone. A fact is spread otherwise once the
/// value of one of these changes, and not where its own does; no value is below 0.
pub fn worked_sums()
    ensures spread { allocation_of 4 (extended by_value two_dims four_facts) ≡ Some (record { den = 450; rows = (0, 400) ∷ (4, 50) ∷ [] }) }
    ensures cell { answer 1 two_dims (extended by_value two_dims four_facts) (2 ∷ 2 ∷ []) ≡ term_with 1 2 400 ∷ term_with 450 400 240000 ∷ [] }
    ensures changed { allocation_of 4 (extended by_value two_dims (after (Change (fact_at 2 (2 ∷ 2 ∷ []) 301)) four_facts))
        ≡ Some (record { den = 451; rows = (0, 401) ∷ (4, 50) ∷ [] }) }
    ensures refreshed { refreshed by_value two_dims four_facts (after (Change (fact_at 2 (2 ∷ 2 ∷ []) 301)) four_facts) ≡ 4 ∷ [] }
    ensures own { refreshed by_value two_dims four_facts (after (Change (fact_at 4 (1 ∷ 2 ∷ []) 601)) four_facts) ≡ [] }
    ensures negative { judge by_value one_weight two_dims (Put (fact_on_first_cell 5 below_0)) four_facts ≡ Some code.Value }
    ensures zero { judge by_value one_weight two_dims (Put (fact_at 5 (2 ∷ 2 ∷ []) 0)) four_facts ≡ None }
    ensures not_weighed { judge by_count one_number two_dims (Put (fact_on_first_cell 5 below_0)) four_facts ≡ None }
{}
