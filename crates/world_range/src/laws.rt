//! Laws of the ends, and examples that are computed from the definitions. The functions do nothing: each law is the contract.
ghost use Rattle.std.specs.Prelude.{◌≡◌, ℕ, List, [], ◌∷◌, All, ℤ, pos, negsuc, true, false};
ghost use Rattle.alloc_rows.specs.Examples.{two_dims};
ghost use Rattle.cube_model.specs.Allocation.{ExtendedFact};
ghost use Rattle.cube_model.specs.Cells.{cells_of};
ghost use Rattle.cube_model.specs.Tree.{Dimension};
ghost use Rattle.world_law.specs.Law.{IsShared};
ghost use Rattle.world_law.specs.Worlds.{column_of};
ghost use Rattle.world_range.specs.Ends.{AreEnds, HasRows};
ghost use Rattle.world_range.specs.Examples.{four_with, two_single};
ghost use Rattle.world_range.specs.Picks.{end_of, part, picks};
ghost use Rattle.world_range.specs.Sides.{part_where, sides_of};
ghost use Rattle.world_range.specs.declared.extreme.Extreme.{Extreme};
ghost use Rattle.world_range.specs.declared.extreme.Extreme.TheVariants.{Greatest, Least};

/// Whatever the allocations, where each fact has a row: for every region and column a world has the least sum, a world has
/// the greatest, and the sum of every world lies between.
pub fn ends_are_reached()
    ensures { (dims : List Dimension) (region : List ℕ) (column : ℕ) (facts : List ExtendedFact) → All HasRows facts → AreEnds dims region column facts }
{}

/// Where the weights of facts add up to their denominators, each fact has a row.
pub fn shared_facts_have_rows()
    ensures { (facts : List ExtendedFact) → All IsShared facts → All HasRows facts }
{}

/// What a fact adds at an end depends on its column, and on which sides its rows lie. So facts that are spread alike need their
/// rows looked at once.
pub fn parts_are_told_by_sides()
    ensures { (extreme : Extreme) (cells : List ℕ) (column : ℕ) (e : ExtendedFact) → HasRows e
        → part extreme cells column e ≡ part_where extreme (sides_of cells e.allocation.rows) (column_of column e) }
{}

/// Ends that were worked out by hand. Two facts of 100 and 300 are in the first cell, one of 50 in its neighbour, and one of 600
/// may be in either. So the first cell has 400 or 1000, of two facts or of three, and its neighbour at most 650. Where both
/// cells are inside, and where both are outside, the last fact is picked in the first.
pub fn worked_ends_above_0()
    ensures least { end_of Least (cells_of two_dims (2 ∷ 2 ∷ [])) 1 (four_with (pos 600)) ≡ pos 400 }
    ensures greatest { end_of Greatest (cells_of two_dims (2 ∷ 2 ∷ [])) 1 (four_with (pos 600)) ≡ pos 1000 }
    ensures low { picks Least (cells_of two_dims (2 ∷ 2 ∷ [])) 1 (four_with (pos 600)) ≡ 0 ∷ 0 ∷ 4 ∷ 4 ∷ [] }
    ensures high { picks Greatest (cells_of two_dims (2 ∷ 2 ∷ [])) 1 (four_with (pos 600)) ≡ 0 ∷ 0 ∷ 4 ∷ 0 ∷ [] }
    ensures fewest { end_of Least (cells_of two_dims (2 ∷ 2 ∷ [])) 0 (four_with (pos 600)) ≡ pos 2 }
    ensures most { end_of Greatest (cells_of two_dims (2 ∷ 2 ∷ [])) 0 (four_with (pos 600)) ≡ pos 3 }
    ensures beside { end_of Greatest (cells_of two_dims (3 ∷ 2 ∷ [])) 1 (four_with (pos 600)) ≡ pos 650 }
    ensures beside_high { picks Greatest (cells_of two_dims (3 ∷ 2 ∷ [])) 1 (four_with (pos 600)) ≡ 0 ∷ 0 ∷ 4 ∷ 4 ∷ [] }
    ensures inside { end_of Least (cells_of two_dims (1 ∷ 2 ∷ [])) 1 (four_with (pos 600)) ≡ pos 1050 }
    ensures inside_low { picks Least (cells_of two_dims (1 ∷ 2 ∷ [])) 1 (four_with (pos 600)) ≡ 0 ∷ 0 ∷ 4 ∷ 0 ∷ [] }
    ensures outside { end_of Greatest (cells_of two_dims (5 ∷ 0 ∷ [])) 1 (four_with (pos 600)) ≡ pos 0 }
    ensures outside_high { picks Greatest (cells_of two_dims (5 ∷ 0 ∷ [])) 1 (four_with (pos 600)) ≡ 0 ∷ 0 ∷ 4 ∷ 0 ∷ [] }
{}

/// The same where the last fact has -600: the first cell has -200 or 400. The count takes no notice of values: in a region with
/// the neighbour, and without the first cell, there is one fact or there are two.
pub fn worked_ends_below_0()
    ensures least { end_of Least (cells_of two_dims (2 ∷ 2 ∷ [])) 1 (four_with (negsuc 599)) ≡ negsuc 199 }
    ensures greatest { end_of Greatest (cells_of two_dims (2 ∷ 2 ∷ [])) 1 (four_with (negsuc 599)) ≡ pos 400 }
    ensures low { picks Least (cells_of two_dims (2 ∷ 2 ∷ [])) 1 (four_with (negsuc 599)) ≡ 0 ∷ 0 ∷ 4 ∷ 0 ∷ [] }
    ensures high { picks Greatest (cells_of two_dims (2 ∷ 2 ∷ [])) 1 (four_with (negsuc 599)) ≡ 0 ∷ 0 ∷ 4 ∷ 4 ∷ [] }
    ensures fewest { end_of Least (cells_of two_dims (3 ∷ 0 ∷ [])) 0 (four_with (negsuc 599)) ≡ pos 1 }
    ensures most { end_of Greatest (cells_of two_dims (3 ∷ 0 ∷ [])) 0 (four_with (negsuc 599)) ≡ pos 2 }
{}

/// Where both ends are one: the last fact has 0, and is picked in its first cell for both; or each fact has one row; or there is
/// no fact.
pub fn worked_ends_that_are_one()
    ensures least { end_of Least (cells_of two_dims (3 ∷ 2 ∷ [])) 1 (four_with (pos 0)) ≡ pos 50 }
    ensures greatest { end_of Greatest (cells_of two_dims (3 ∷ 2 ∷ [])) 1 (four_with (pos 0)) ≡ pos 50 }
    ensures low { picks Least (cells_of two_dims (3 ∷ 2 ∷ [])) 1 (four_with (pos 0)) ≡ 0 ∷ 0 ∷ 4 ∷ 0 ∷ [] }
    ensures high { picks Greatest (cells_of two_dims (3 ∷ 2 ∷ [])) 1 (four_with (pos 0)) ≡ 0 ∷ 0 ∷ 4 ∷ 0 ∷ [] }
    ensures single_least { end_of Least (cells_of two_dims (2 ∷ 2 ∷ [])) 1 two_single ≡ pos 605 }
    ensures single_greatest { end_of Greatest (cells_of two_dims (2 ∷ 2 ∷ [])) 1 two_single ≡ pos 605 }
    ensures single_fewest { end_of Least (cells_of two_dims (2 ∷ 2 ∷ [])) 0 two_single ≡ pos 2 }
    ensures single_most { end_of Greatest (cells_of two_dims (2 ∷ 2 ∷ [])) 0 two_single ≡ pos 2 }
    ensures none_least { end_of Least (cells_of two_dims (0 ∷ 0 ∷ [])) 1 [] ≡ pos 0 }
    ensures none_low { picks Least (cells_of two_dims (0 ∷ 0 ∷ [])) 1 [] ≡ [] }
{}

/// On which sides of a region two rows lie, and what a fact over them adds there at an end.
pub fn worked_sides()
    ensures both { sides_of (cells_of two_dims (2 ∷ 2 ∷ [])) ((0, 2) ∷ (4, 1) ∷ []) ≡ record { inside = true; outside = true } }
    ensures inside { sides_of (cells_of two_dims (1 ∷ 2 ∷ [])) ((0, 2) ∷ (4, 1) ∷ []) ≡ record { inside = true; outside = false } }
    ensures outside { sides_of (cells_of two_dims (5 ∷ 0 ∷ [])) ((0, 2) ∷ (4, 1) ∷ []) ≡ record { inside = false; outside = true } }
    ensures both_least { part_where Least (record { inside = true; outside = true }) (pos 600) ≡ pos 0 }
    ensures both_greatest { part_where Greatest (record { inside = true; outside = true }) (pos 600) ≡ pos 600 }
    ensures inside_least { part_where Least (record { inside = true; outside = false }) (pos 600) ≡ pos 600 }
    ensures outside_greatest { part_where Greatest (record { inside = false; outside = true }) (pos 600) ≡ pos 0 }
{}
