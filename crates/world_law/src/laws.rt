//! Laws of worlds, and examples that are computed from the definitions. The functions do nothing: each law is the contract.
ghost use Rattle.std.specs.Prelude.{◌≡◌, ◌≤◌, ◌↔◌, ℕ, List, [], ◌∷◌, All, None, Some, length, map, pos, replicate};
ghost use Rattle.std.specs.Int.{◌∣◌};
ghost use Rattle.alloc_rows.specs.Examples.{two_dims};
ghost use Rattle.cube_model.specs.Allocation.{ExtendedFact};
ghost use Rattle.cube_model.specs.Answer.{answer};
ghost use Rattle.cube_model.specs.Cells.{cells_of};
ghost use Rattle.cube_model.specs.Tree.{Dimension, IsTree};
ghost use Rattle.region_algebra.specs.Space.{IsRegion, product};
ghost use Rattle.world_law.specs.Additive.{AddUpOverChildren};
ghost use Rattle.world_law.specs.Examples.{four_spread, spread_fact, two_over_three, world_of_two};
ghost use Rattle.world_law.specs.Law.{IsLawful, IsShared, cleared, expected};
ghost use Rattle.world_law.specs.Limits.{MAX_WORLDS};
ghost use Rattle.world_law.specs.Placed.{dens, placed_facts, placed_of, product_above, row_counts};
ghost use Rattle.world_law.specs.declared.placed.Placed.{Placed};
ghost use Rattle.world_law.specs.Worlds.{mass, total, world_count, world_sum, worlds};

/// Where the weights of each fact add up to its denominator, the mass of the worlds is the product of the denominators, so
/// each of these divides it. There are as many worlds as the product of the numbers of rows.
pub fn mass_is_a_product()
    ensures mass { (facts : List ExtendedFact) → All IsShared facts → mass facts ≡ product (map (λ e. e.allocation.den) facts) }
    ensures divides { (facts : List ExtendedFact) → All IsShared facts → All (λ e. e.allocation.den ∣ mass facts) facts }
    ensures count { (facts : List ExtendedFact) → world_count facts ≡ product (map (λ e. length e.allocation.rows) facts) }
{}

/// The law of expectation: whatever the allocations, a region's total of a column over all worlds is the sum over the facts
/// of the column times the weight inside, times the mass divided by the fact's denominator.
pub fn totals_are_expected()
    ensures { (dims : List Dimension) (region : List ℕ) (column : ℕ) (facts : List ExtendedFact) → All IsShared facts
        → total dims region column facts ≡ expected dims region column facts }
{}

/// So an answer, which adds up facts denominator by denominator, is the exact expectation over all worlds.
pub fn answers_are_expected()
    ensures { (columns : ℕ) (dims : List Dimension) (region : List ℕ) (facts : List ExtendedFact) → All IsShared facts → IsLawful columns dims region facts }
{}

/// Where a region's node in a dimension has children, the answers at the regions with each child in its place merge to the
/// answer at the region, whatever the facts.
pub fn answers_add_up_over_children()
    ensures { (columns : ℕ) (dims : List Dimension) (region : List ℕ) (facts : List ExtendedFact) → All IsTree dims → IsRegion dims region
        → AddUpOverChildren columns dims region facts (answer columns dims facts region) }
{}

/// The first product of numbers of rows that is above the limit is there exactly where there are more worlds than that, and
/// the product of the denominators is the mass.
pub fn refusals_are_exact()
    ensures many { (placed : List Placed) → All (λ p. 1 ≤ length p.rows) placed
        → (product_above MAX_WORLDS 1 (row_counts placed) ≡ None) ↔ (world_count (placed_facts placed) ≤ MAX_WORLDS) }
    ensures wide { (placed : List Placed) → All IsShared (placed_facts placed) → product (dens placed) ≡ mass (placed_facts placed) }
{}

/// Worlds take no notice of the ids of facts.
pub fn ids_do_not_matter()
    ensures count { (facts : List ExtendedFact) → world_count (placed_facts (map placed_of facts)) ≡ world_count facts }
    ensures mass { (facts : List ExtendedFact) → mass (placed_facts (map placed_of facts)) ≡ mass facts }
    ensures total { (dims : List Dimension) (region : List ℕ) (column : ℕ) (facts : List ExtendedFact)
        → total dims region column (placed_facts (map placed_of facts)) ≡ total dims region column facts }
{}

/// Worlds that were listed by hand. One of four facts may stand in either of two cells. The world in which it stands
/// beside the first two has weight 2, and there they are three with 1000 together. The other has weight 1, and there
/// they are two with 400. The answer there, two over 1 and two over 3, stands for the same totals. Sixteen facts of two
/// rows have no more worlds than are listed, and a seventeenth makes them too many.
pub fn worked_worlds()
    ensures none { worlds [] ≡ record { weight = 1; standing = [] } ∷ [] }
    ensures count { world_count four_spread ≡ 2 }
    ensures weights { map (λ world. world.weight) (worlds four_spread) ≡ 2 ∷ 1 ∷ [] }
    ensures counts { map (world_sum (cells_of two_dims (2 ∷ 2 ∷ [])) 0) (worlds four_spread) ≡ pos 3 ∷ pos 2 ∷ [] }
    ensures sums { map (world_sum (cells_of two_dims (2 ∷ 2 ∷ [])) 1) (worlds four_spread) ≡ pos 1000 ∷ pos 400 ∷ [] }
    ensures mass { mass four_spread ≡ 3 }
    ensures total_count { total two_dims (2 ∷ 2 ∷ []) 0 four_spread ≡ pos 8 }
    ensures total_sum { total two_dims (2 ∷ 2 ∷ []) 1 four_spread ≡ pos 2400 }
    ensures cleared_count { cleared 3 0 (answer 1 two_dims four_spread (2 ∷ 2 ∷ [])) ≡ pos 8 }
    ensures cleared_sum { cleared 3 1 (answer 1 two_dims four_spread (2 ∷ 2 ∷ [])) ≡ pos 2400 }
    ensures few { product_above MAX_WORLDS 1 (replicate 16 2) ≡ None }
    ensures many { product_above MAX_WORLDS 1 (replicate 17 2) ≡ Some 131072 }
    ensures first { product_above MAX_WORLDS 1 (300 ∷ 300 ∷ 2 ∷ []) ≡ Some 90000 }
    ensures two_spread { map (λ world. world.weight) (worlds (spread_fact 1 100 3 ((0, 2) ∷ (4, 1) ∷ []) ∷ spread_fact 2 300 5 ((0, 1) ∷ (4, 4) ∷ []) ∷ [])) ≡ 2 ∷ 8 ∷ 1 ∷ 4 ∷ [] }
{}

/// The nine worlds of two facts over three cells each, listed by hand: 100 stands in cell 12, 13 or 16 with weight 1, 2 or 3,
/// and 300 in the same cells with weight 2, 1 or 1. A region has cells 12 and 16 alone, where the first has weight 4 of 6 and
/// the second 3 of 4. So over all worlds, each taken as often as it weighs, 24 together, its count is 34 and its sum is
/// 7000. The answer there stands for the same totals.
pub fn worked_worlds_of_three_cells()
    ensures listed { worlds two_over_three
        ≡ world_of_two 2 12 12 ∷ world_of_two 1 12 13 ∷ world_of_two 1 12 16
        ∷ world_of_two 4 13 12 ∷ world_of_two 2 13 13 ∷ world_of_two 2 13 16
        ∷ world_of_two 6 16 12 ∷ world_of_two 3 16 13 ∷ world_of_two 3 16 16 ∷ [] }
    ensures mass { mass two_over_three ≡ 24 }
    ensures cells { cells_of two_dims (5 ∷ 2 ∷ []) ≡ 12 ∷ 16 ∷ [] }
    ensures counts { map (world_sum (12 ∷ 16 ∷ []) 0) (worlds two_over_three)
        ≡ pos 2 ∷ pos 1 ∷ pos 2 ∷ pos 1 ∷ pos 0 ∷ pos 1 ∷ pos 2 ∷ pos 1 ∷ pos 2 ∷ [] }
    ensures sums { map (world_sum (12 ∷ 16 ∷ []) 1) (worlds two_over_three)
        ≡ pos 400 ∷ pos 100 ∷ pos 400 ∷ pos 300 ∷ pos 0 ∷ pos 300 ∷ pos 400 ∷ pos 100 ∷ pos 400 ∷ [] }
    ensures total_count { total two_dims (5 ∷ 2 ∷ []) 0 two_over_three ≡ pos 34 }
    ensures total_sum { total two_dims (5 ∷ 2 ∷ []) 1 two_over_three ≡ pos 7000 }
    ensures cleared_count { cleared 24 0 (answer 1 two_dims two_over_three (5 ∷ 2 ∷ [])) ≡ pos 34 }
    ensures cleared_sum { cleared 24 1 (answer 1 two_dims two_over_three (5 ∷ 2 ∷ [])) ≡ pos 7000 }
{}
