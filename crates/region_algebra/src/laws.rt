//! Laws of regions and cells, and examples that are computed from the definitions. The functions do nothing: each law
//! is the contract.
ghost use Rattle.std.specs.Prelude.{◌≡◌, ◌⊎◌, ◌<◌, ◌≤◌, ℕ, List, [], ◌∷◌, true, false, if◌then◌else◌, All, IfSome, None, Some, length, replicate, slice_get, slice_set};
ghost use Rattle.std.specs.List.{count_by, range_with_len};
ghost use Rattle.cube_model.specs.Tree.{Dimension, IsTree, entry_of, is_leaf, is_under, node_named};
ghost use Rattle.cube_model.specs.Cells.{all_cells, cells_of, is_among};
ghost use Rattle.cube_model.specs.Cut.{children};
ghost use Rattle.region_algebra.specs.declared.space.SpaceFault.TheVariants.{Cells, Dims, Nodes};
ghost use Rattle.region_algebra.specs.Examples.{deep_space, flat_fault, flat_growth, grown_family, grown_pair, numbered_space, pair, small_space};
ghost use Rattle.region_algebra.specs.Fault.{space_fault};
ghost use Rattle.region_algebra.specs.Growth.{child_fault, grow_fault, grown_dims};
ghost use Rattle.region_algebra.specs.declared.growth.GrowFault.TheVariants as growth;
ghost use Rattle.region_algebra.specs.declared.growth.GrowFault.TheVariants.{Depth, Limit, Name};
ghost use Rattle.cube_model.specs.Limits.{MAX_DEPTH, MAX_NODES};
ghost use Rattle.dim_tree.specs.Examples.{family};
ghost use Rattle.region_algebra.specs.Space.{all_regions, IsRegion, code_of, common_cells, is_region, leaf_counts, meet_of, only_cell, product, region_total};

/// Of two nodes of a tree one is under the other, or no node is under both.
pub fn nested_or_apart()
    ensures { (dim : Dimension) (x y : ℕ) → IsTree dim → x < length dim → y < length dim
        → (is_under dim x y ≡ true) ⊎ ((is_under dim y x ≡ true) ⊎ ((z : ℕ) → z < length dim → is_under dim z x ≡ true → is_under dim z y ≡ true → ⊥)) }
{}

/// A region has as many cells as the product of the numbers of leaves under its nodes.
pub fn cells_are_a_product()
    ensures { (dims : List Dimension) (region : List ℕ) → All IsTree dims → IsRegion dims region
        → length (cells_of dims region) ≡ product (leaf_counts dims region) }
{}

/// Where a region's node in a dimension has children, each cell of the region is in exactly one of the regions with
/// a child in its place, and no other cell is in any.
pub fn cells_are_those_of_the_children()
    ensures { (dims : List Dimension) (region : List ℕ) (d : ℕ) → All IsTree dims → IsRegion dims region
        → IfSome (slice_get dims d) (λ dim. IfSome (slice_get region d) (λ node. is_leaf dim node ≡ false
        → (cell : ℕ) → count_by (λ child. is_among (cells_of dims (slice_set region d child)) cell) (children dim node) ≡ (if is_among (cells_of dims region) cell then 1 else 0))) }
{}

/// Two regions of a space have one code only where they are one.
pub fn codes_tell_regions_apart()
    ensures { (dims : List Dimension) (a b : List ℕ) → All IsTree dims → IsRegion dims a → IsRegion dims b → code_of dims a ≡ code_of dims b → a ≡ b }
{}

/// A space of seven and three nodes, one whose nodes have other numbers than their places, and limits of spaces,
/// that were worked out by hand.
pub fn worked_regions()
    ensures no_node { is_region small_space (7 ∷ 0 ∷ []) ≡ false }
    ensures cells { cells_of small_space (1 ∷ 0 ∷ []) ≡ 0 ∷ 1 ∷ 2 ∷ 3 ∷ [] }
    ensures cells_of_a_leaf { cells_of small_space (0 ∷ 1 ∷ []) ≡ 0 ∷ 2 ∷ 4 ∷ 6 ∷ [] }
    ensures all_cells { cells_of small_space (0 ∷ 0 ∷ []) ≡ range_with_len 0 8 }
    ensures leaves_of_a_cell { slice_get (all_cells small_space) 5 ≡ Some (5 ∷ 2 ∷ []) }
    ensures only_cell { only_cell (cells_of small_space (4 ∷ 1 ∷ [])) ≡ Some 4 }
    ensures several_cells { only_cell (cells_of small_space (1 ∷ 1 ∷ [])) ≡ None }
    ensures meet { meet_of small_space (1 ∷ 0 ∷ []) (0 ∷ 1 ∷ []) ≡ Some (1 ∷ 1 ∷ []) }
    ensures shared { common_cells small_space (1 ∷ 0 ∷ []) (0 ∷ 1 ∷ []) ≡ 0 ∷ 2 ∷ [] }
    ensures apart { meet_of small_space (1 ∷ 0 ∷ []) (4 ∷ 0 ∷ []) ≡ None }
    ensures nothing_shared { common_cells small_space (1 ∷ 0 ∷ []) (4 ∷ 0 ∷ []) ≡ [] }
    ensures regions { region_total small_space ≡ 21 }
    ensures code { slice_get (all_regions small_space) 4 ≡ Some (1 ∷ 1 ∷ []) }
    ensures last_code { slice_get (all_regions small_space) 20 ≡ Some (6 ∷ 2 ∷ []) }
    ensures no_code { slice_get (all_regions small_space) 21 ≡ None }
    ensures accepted { space_fault small_space ≡ None }
    ensures numbered { IsRegion numbered_space (5 ∷ 2 ∷ []) }
    ensures no_number { is_region numbered_space (7 ∷ 0 ∷ []) ≡ false }
    ensures numbered_cells { cells_of numbered_space (2 ∷ 0 ∷ []) ≡ 0 ∷ 1 ∷ 2 ∷ 3 ∷ [] }
    ensures numbered_leaf { cells_of numbered_space (3 ∷ 1 ∷ []) ≡ 2 ∷ [] }
    ensures numbered_leaves { slice_get (all_cells numbered_space) 5 ≡ Some (5 ∷ 2 ∷ []) }
    ensures numbered_meet { meet_of numbered_space (1 ∷ 0 ∷ []) (5 ∷ 1 ∷ []) ≡ Some (5 ∷ 1 ∷ []) }
    ensures numbered_apart { meet_of numbered_space (2 ∷ 0 ∷ []) (5 ∷ 1 ∷ []) ≡ None }
    ensures coded { code_of numbered_space (3 ∷ 1 ∷ []) ≡ 10 }
    ensures uncoded { slice_get (all_regions numbered_space) 10 ≡ Some (3 ∷ 1 ∷ []) }
    ensures no_dimension { space_fault [] ≡ Some (Dims 0) }
    ensures seven_dimensions { space_fault (replicate 7 pair) ≡ Some (Dims 7) }
    ensures large { flat_fault (replicate 6 1024) ≡ None }
    ensures many_cells { flat_fault (2048 ∷ 2048 ∷ replicate 4 1024) ≡ Some Cells }
    ensures many_nodes { flat_fault (4095 ∷ replicate 5 1024) ≡ Some Nodes }
{}

/// A space with a leaf more, and why a space gets none, that were worked out by hand.
pub fn worked_growth()
    ensures accepted { grow_fault small_space 1 1 (122 ∷ []) ≡ None }
    ensures grown { grown_dims small_space 1 1 (122 ∷ []) ≡ family ∷ grown_pair ∷ [] }
    ensures leaf_of_a_leaf { cells_of (grown_dims small_space 1 1 (122 ∷ [])) (2 ∷ 1 ∷ []) ≡ 0 ∷ [] }
    ensures coded { code_of (grown_dims small_space 1 1 (122 ∷ [])) (2 ∷ 3 ∷ []) ≡ 10 }
    ensures name { grow_fault small_space 1 1 (99 ∷ []) ≡ Some Name }
    ensures name_elsewhere { grow_fault small_space 1 1 (100 ∷ []) ≡ None }
    ensures depth { grow_fault deep_space 0 8 (122 ∷ []) ≡ Some Depth }
    ensures name_before_depth { grow_fault deep_space 0 8 (97 ∷ []) ≡ Some Name }
    ensures first_dimension { grown_dims small_space 0 4 (122 ∷ []) ≡ grown_family ∷ pair ∷ [] }
    ensures most_nodes { flat_growth (4075 ∷ replicate 5 1024) ≡ None }
    ensures nodes { flat_growth (4076 ∷ replicate 5 1024) ≡ Some growth.Nodes }
    ensures cells_before_nodes { flat_growth (2048 ∷ 2048 ∷ replicate 4 1024) ≡ Some growth.Cells }
{}

/// A dimension of 65,536 nodes gets no leaf, where neither the name nor the depth is in the way.
pub fn a_full_dimension_gets_no_leaf()
    ensures { (dim : Dimension) (parent : ℕ) (name : List ℕ) → node_named dim name ≡ None → IfSome (entry_of dim parent) (λ e. e.depth < MAX_DEPTH)
        → MAX_NODES ≤ length dim → child_fault dim parent name ≡ Some Limit }
{}
