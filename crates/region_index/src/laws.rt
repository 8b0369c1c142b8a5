//! Laws of the index, and examples that are computed from the definitions. The functions do nothing: each law is the
//! contract.
ghost use Rattle.std.specs.Prelude.{◌≡◌, ℕ, List, [], ◌∷◌, ◌||◌, ◌&&◌, ◌<◌, ◌≤◌, All, Some, length, not, true};
ghost use Rattle.std.specs.List.{list_any};
ghost use Rattle.cube_model.specs.Cells.{all_cells, is_among};
ghost use Rattle.region_index.specs.Depths.{depth_product};
ghost use Rattle.cube_model.specs.declared.edit.Fact.{Fact};
ghost use Rattle.cube_model.specs.Ascending.{ascends_from};
ghost use Rattle.cube_model.specs.Tree.{Dimension, IsTree};
ghost use Rattle.region_algebra.specs.Examples.{numbered_space, small_space};
ghost use Rattle.region_algebra.specs.Space.{IsRegion};
ghost use Rattle.region_index.specs.Changes.{Applies, Pair, ids_after, is_named};
ghost use Rattle.region_index.specs.Content.{AreIdsAt, Content, held_codes};
ghost use Rattle.region_index.specs.Examples.{small_facts};
ghost use Rattle.region_index.specs.Indexed.{Indexes, covers_at, has_at, ids_that_cover};
ghost use Rattle.region_index.specs.Over.{codes_over};
ghost use Rattle.region_index.specs.Patterns.{HasPatterns, KnowsPatterns, Patterns, codes_of_pattern, is_known, noted, pattern_of};
ghost use Rattle.region_index.specs.Touching.{codes_touching};

/// Where an index holds, at the code of each region, the ids of the imprecise facts there, the ids at the regions over a
/// cell are those of the imprecise facts whose region holds the cell, in the facts' order.
pub fn ids_over_a_cell_are_those_of_the_facts()
    ensures { (dims : List Dimension) (facts : List Fact) (content : Content) (cell : ℕ) (ids : List ℕ) → All IsTree dims → All (λ fact. IsRegion dims fact.region) facts
        → ascends_from (λ fact. fact.id) 0 facts ≡ true → Indexes dims facts content → AreIdsAt content (codes_over dims cell) ids → ids ≡ ids_that_cover dims cell facts }
{}

/// Where an index holds the imprecise facts, the codes over a cell at which it holds ids are those of the regions of the
/// imprecise facts that cover the cell.
pub fn codes_held_over_a_cell_are_those_of_the_facts()
    ensures { (dims : List Dimension) (facts : List Fact) (content : Content) (cell code : ℕ) → All IsTree dims → All (λ fact. IsRegion dims fact.region) facts → Indexes dims facts content
        → is_among (held_codes content (codes_over dims cell)) code ≡ list_any (covers_at dims cell code) facts }
{}

/// Where of each imprecise fact the region's pattern is known, so are those of the regions at which an index of the facts
/// holds ids.
pub fn known_patterns_are_those_of_an_index()
    ensures { (dims : List Dimension) (facts : List Fact) (content : Content) (patterns : Patterns) → All IsTree dims → All (λ fact. IsRegion dims fact.region) facts
        → Indexes dims facts content → KnowsPatterns dims facts patterns → HasPatterns dims content patterns }
{}

/// Once a pattern is noted, it is known, and so is what was known before.
pub fn notes_keep_what_is_known()
    ensures noted { (patterns : Patterns) (pattern : ℕ) → is_known (noted patterns pattern) pattern ≡ true }
    ensures kept { (patterns : Patterns) (pattern other : ℕ) → is_known patterns other ≡ true → is_known (noted patterns pattern) other ≡ true }
{}

/// The regions over a cell are no more than the depths of the nodes in each dimension, multiplied.
pub fn regions_over_a_cell_are_no_more_than_depths()
    ensures { (dims : List Dimension) (cell : ℕ) → All IsTree dims → cell < length (all_cells dims) → length (codes_over dims cell) ≤ depth_product dims }
{}

/// An index of facts is one of the facts after a change of them too, where the puts name what comes and the drops what
/// goes: an id stands at a code after that is put there, or that stood there and is not dropped.
pub fn an_index_follows_its_facts()
    ensures { (dims : List Dimension) (before after : List Fact) (old new : Content) (puts drops : List Pair) → ascends_from (λ fact. fact.id) 0 before ≡ true → ascends_from (λ fact. fact.id) 0 after ≡ true
        → ((code id : ℕ) → has_at dims code id after ≡ (is_named puts code id || (has_at dims code id before && not (is_named drops code id))))
        → Indexes dims before old → Applies old new puts drops → Indexes dims after new }
{}

/// Regions over cells of a space of seven and three nodes and of one whose nodes have other numbers than their places,
/// the facts that cover a cell, and what changes make of ids, worked out by hand.
pub fn worked_indexes()
    ensures over { codes_over small_space 5 ≡ 0 ∷ 2 ∷ 12 ∷ 14 ∷ 15 ∷ 17 ∷ [] }
    ensures over_a_leaf_below_the_root { codes_over small_space 6 ≡ 0 ∷ 1 ∷ 18 ∷ 19 ∷ [] }
    ensures over_numbered { codes_over numbered_space 5 ≡ 0 ∷ 2 ∷ 12 ∷ 14 ∷ 15 ∷ 17 ∷ [] }
    ensures over_no_cell { codes_over small_space 8 ≡ [] }
    ensures pattern { pattern_of small_space (4 ∷ 2 ∷ []) ≡ 10 }
    ensures pattern_of_the_roots { pattern_of small_space (0 ∷ 0 ∷ []) ≡ 0 }
    ensures of_a_pattern { codes_of_pattern small_space (5 ∷ 2 ∷ []) 10 ≡ 14 ∷ [] }
    ensures leaf_less_deep { codes_of_pattern small_space (6 ∷ 2 ∷ []) 11 ≡ [] }
    ensures noted { noted (Some (10 ∷ [])) 3 ≡ Some (10 ∷ 3 ∷ []) }
    ensures noted_twice { noted (Some (10 ∷ 3 ∷ [])) 10 ≡ Some (10 ∷ 3 ∷ []) }
    ensures depths { depth_product small_space ≡ 6 }
    ensures covering { ids_that_cover small_space 5 small_facts ≡ 2 ∷ 4 ∷ [] }
    ensures covering_elsewhere { ids_that_cover small_space 2 small_facts ≡ 4 ∷ 9 ∷ [] }
    ensures drops_before_puts { ids_after ((12, 9) ∷ []) ((12, 9) ∷ (12, 5) ∷ []) 12 (2 ∷ 5 ∷ 9 ∷ []) ≡ 2 ∷ 9 ∷ [] }
    ensures put_between { ids_after ((12, 3) ∷ (12, 1) ∷ (0, 4) ∷ []) [] 12 (2 ∷ 5 ∷ []) ≡ 1 ∷ 2 ∷ 3 ∷ 5 ∷ [] }
    ensures held_once { ids_after ((12, 5) ∷ (12, 5) ∷ []) [] 12 (2 ∷ 5 ∷ []) ≡ 2 ∷ 5 ∷ [] }
    ensures not_there { ids_after [] ((12, 3) ∷ (0, 2) ∷ []) 12 (2 ∷ 5 ∷ []) ≡ 2 ∷ 5 ∷ [] }
{}

/// Regions of these spaces that have a cell in common with a region, worked out by hand.
pub fn worked_touching()
    ensures node_and_leaf { codes_touching small_space (4 ∷ 1 ∷ []) ≡ 0 ∷ 1 ∷ 12 ∷ 13 ∷ 15 ∷ 16 ∷ [] }
    ensures node_and_root { codes_touching small_space (1 ∷ 0 ∷ []) ≡ 0 ∷ 1 ∷ 2 ∷ 3 ∷ 4 ∷ 5 ∷ 6 ∷ 7 ∷ 8 ∷ 9 ∷ 10 ∷ 11 ∷ [] }
    ensures leaf_below_the_root { codes_touching small_space (6 ∷ 2 ∷ []) ≡ 0 ∷ 2 ∷ 18 ∷ 20 ∷ [] }
    ensures numbered { codes_touching numbered_space (1 ∷ 1 ∷ []) ≡ 0 ∷ 1 ∷ 12 ∷ 13 ∷ 15 ∷ 16 ∷ [] }
{}
