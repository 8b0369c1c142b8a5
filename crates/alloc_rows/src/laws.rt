//! What follows from the definitions, and examples that are computed from them. The functions do nothing: the laws are
//! their contracts.
ghost use Rattle.std.specs.Prelude.{◌≡◌, ℕ, List, [], ◌∷◌, ◌++◌};
ghost use Rattle.cube_model.specs.Allocation.{allocation, by_count, by_sum, spread, uniform, weigh_count};
ghost use Rattle.cube_model.specs.Answer.{weight_inside};
ghost use Rattle.cube_model.specs.Cells.{cells_of};
ghost use Rattle.cube_model.specs.declared.statistic.CellStat.{CellStat};
ghost use Rattle.staged_map.specs.Staged.{Places};
ghost use Rattle.cell_weight.specs.Stats.{Installs, no_facts, stat_at};
ghost use Rattle.alloc_rows.specs.Changed.{Change, changes_among, new_stats, stat_after};
ghost use Rattle.alloc_rows.specs.Examples.{fact_at, fact_somewhere, facts, four_facts, no_stats, one_dim, three_cells, two_dims};

/// Rows that were worked out by hand. A fact somewhere in three cells is spread over the two where precise facts lie, as
/// their counts or the sums of their values say; its own value does not matter. It is spread evenly over all three by the
/// policy that weighs evenly, and where no fact lies, or only such as sum to 0. A node of one leaf is that leaf.
pub fn worked_rows()
    ensures count { allocation by_count two_dims four_facts fact_somewhere ≡ record { den = 3; rows = (0, 2) ∷ (4, 1) ∷ [] } }
    ensures sum { allocation (by_sum 1) two_dims four_facts fact_somewhere ≡ record { den = 450; rows = (0, 400) ∷ (4, 50) ∷ [] } }
    ensures evenly { allocation uniform two_dims four_facts fact_somewhere ≡ record { den = 3; rows = (0, 1) ∷ (4, 1) ∷ (8, 1) ∷ [] } }
    ensures moved { allocation by_count two_dims (fact_at 1 (2 ∷ 2 ∷ []) 1 ∷ fact_at 2 (2 ∷ 2 ∷ []) 1 ∷ fact_at 3 (4 ∷ 2 ∷ []) 1 ∷ []) fact_somewhere
        ≡ record { den = 3; rows = (0, 2) ∷ (8, 1) ∷ [] } }
    ensures alone { allocation by_count two_dims (fact_somewhere ∷ []) fact_somewhere ≡ record { den = 3; rows = (0, 1) ∷ (4, 1) ∷ (8, 1) ∷ [] } }
    ensures zeros { allocation (by_sum 1) two_dims (fact_at 1 (2 ∷ 2 ∷ []) 0 ∷ []) fact_somewhere ≡ record { den = 3; rows = (0, 1) ∷ (4, 1) ∷ (8, 1) ∷ [] } }
    ensures zero { allocation (by_sum 1) two_dims (fact_at 1 (2 ∷ 2 ∷ []) 0 ∷ fact_at 3 (3 ∷ 2 ∷ []) 50 ∷ []) fact_somewhere ≡ record { den = 50; rows = (4, 50) ∷ [] } }
    ensures precise { allocation (by_sum 1) two_dims four_facts (fact_at 1 (2 ∷ 2 ∷ []) 100) ≡ record { den = 1; rows = (0, 1) ∷ [] } }
    ensures one_leaf { allocation by_count one_dim [] (fact_at 1 (1 ∷ []) 1) ≡ record { den = 1; rows = (0, 1) ∷ [] } }
    ensures at_one_leaf { allocation by_count one_dim (fact_at 1 (1 ∷ []) 1 ∷ []) (fact_at 2 (0 ∷ []) 1) ≡ record { den = 1; rows = (0, 1) ∷ [] } }
    ensures inside { weight_inside (cells_of two_dims (2 ∷ 2 ∷ [])) (allocation by_count two_dims four_facts fact_somewhere) ≡ 2 }
    ensures all_inside { weight_inside (cells_of two_dims (1 ∷ 0 ∷ [])) (allocation by_count two_dims four_facts fact_somewhere) ≡ 3 }
    ensures none_inside { weight_inside (cells_of two_dims (4 ∷ 2 ∷ [])) (allocation by_count two_dims four_facts fact_somewhere) ≡ 0 }
{}

/// Statistics after changes, and what is spread by them. Changes applied after others equal both in one list, the later
/// first. The changes of a region's cells are all that count there, so that a region without any keeps its allocation.
/// And where the changes were installed, what was spread by the statistics after them is what is spread by those that
/// are kept: the next step begins with it.
pub fn steps_compose()
    ensures twice { (stats : ℕ → CellStat) (first second : List Change) (cell : ℕ) → stat_after (stat_after stats first) second cell ≡ stat_after stats (second ++ first) cell }
    ensures inside { (weigh : CellStat → ℕ) (stats : ℕ → CellStat) (changes : List Change) (cells : List ℕ)
        → spread (λ cell. weigh (stat_after stats (changes_among cells changes) cell)) cells ≡ spread (λ cell. weigh (stat_after stats changes cell)) cells }
    ensures installed { (weigh : CellStat → ℕ) (old new : Places CellStat) (changes : List Change) (cells : List ℕ) → Installs old new (new_stats changes)
        → spread (λ cell. weigh (stat_after (stat_at old) changes cell)) cells ≡ spread (λ cell. weigh (stat_at new cell)) cells }
{}

/// Rows that were worked out by hand, where the counts of cells change. A cell that gets its first fact gets a row, and
/// takes the place of even ones; one that loses its last loses its row, and where no other is left all are even. A fact that
/// moves from one cell to another takes all of the weight along.
pub fn worked_steps()
    ensures first { spread (λ cell. weigh_count (stat_after no_stats ((4, no_facts, facts 1) ∷ []) cell)) three_cells ≡ record { den = 1; rows = (4, 1) ∷ [] } }
    ensures another { spread (λ cell. weigh_count (stat_after (stat_after no_stats ((4, no_facts, facts 1) ∷ [])) ((0, no_facts, facts 2) ∷ []) cell)) three_cells
        ≡ record { den = 3; rows = (0, 2) ∷ (4, 1) ∷ [] } }
    ensures moved { spread (λ cell. weigh_count (stat_after (stat_after no_stats ((4, no_facts, facts 1) ∷ [])) ((4, facts 1, no_facts) ∷ (8, no_facts, facts 1) ∷ []) cell)) three_cells
        ≡ record { den = 1; rows = (8, 1) ∷ [] } }
    ensures last { spread (λ cell. weigh_count (stat_after (stat_after no_stats ((4, no_facts, facts 1) ∷ [])) ((4, facts 1, no_facts) ∷ []) cell)) three_cells
        ≡ record { den = 3; rows = (0, 1) ∷ (4, 1) ∷ (8, 1) ∷ [] } }
{}
