//! Laws of trees, and examples that are computed from the definitions. A function here does nothing: the law is its contract.
ghost use Rattle.std.specs.Prelude.{◌≡◌, ◌+◌, ◌<◌, ◌≤◌, ℕ, List, [], ◌∷◌, true, if◌then◌else◌, None, Some, IfSome, filter, length, map};
ghost use Rattle.std.specs.List.{range_with_len};
ghost use Rattle.cube_base.specs.Name.{is_name};
ghost use Rattle.cube_model.specs.declared.tree.DimFault.TheVariants.{Depth, Empty, Many, Name, Number, Root};
ghost use Rattle.cube_model.specs.declared.tree.NodeLine.{NodeLine};
ghost use Rattle.cube_model.specs.Cells.{leaf_places};
ghost use Rattle.cube_model.specs.Cut.{cut, first_child, next_sibling};
ghost use Rattle.cube_model.specs.Growing.{grown};
ghost use Rattle.cube_model.specs.Limits.{MAX_DEPTH, MAX_NODES};
ghost use Rattle.cube_model.specs.Tree.{Dimension, IsTree, dim_fault, entry_of, is_leaf, is_under, leaves, node_named, parent, place_of, tree_fault};
ghost use Rattle.dim_tree.specs.Examples.{chain, family, family_lines, line, made_in_turn, node};

/// A dimension that grows a leaf stays a tree. It has a node more, and a leaf more unless the parent was a leaf.
pub fn grown_stays_a_tree()
    ensures tree { (dim : Dimension) (parent : ℕ) (name : List ℕ) → IsTree dim → parent < length dim → IfSome (entry_of dim parent) (λ e. e.depth < MAX_DEPTH)
        → length dim < MAX_NODES → node_named dim name ≡ None → is_name name ≡ true → IsTree (grown dim parent name) }
    ensures nodes { (dim : Dimension) (parent : ℕ) (name : List ℕ) → IsTree dim → parent < length dim → length (grown dim parent name) ≡ length dim + 1 }
    ensures leaves { (dim : Dimension) (parent : ℕ) (name : List ℕ) → IsTree dim → parent < length dim → IfSome (entry_of dim parent) (λ e. e.depth < MAX_DEPTH)
        → length dim < MAX_NODES → node_named dim name ≡ None → is_name name ≡ true → length (leaves (grown dim parent name)) ≡ length (leaves dim) + (if is_leaf dim parent then 0 else 1) }
{}

/// A tree of two nodes or more has fewer leaves than nodes.
pub fn fewer_leaves_than_nodes()
    ensures { (dim : Dimension) → IsTree dim → 2 ≤ length dim → length (leaves dim) + 1 ≤ length dim }
{}

/// More than 65,536 lines are refused for their number, whatever they are.
pub fn too_many_lines()
    ensures { (lines : List NodeLine) → MAX_NODES < length lines → tree_fault lines ≡ Some Many }
{}

/// Trees that were worked out by hand.
pub fn worked_trees()
    ensures parents { map (parent family) (range_with_len 0 7) ≡ None ∷ Some 0 ∷ Some 1 ∷ Some 1 ∷ Some 0 ∷ Some 4 ∷ Some 0 ∷ [] }
    ensures under { filter (λ x. is_under family x 1) (range_with_len 0 7) ≡ 1 ∷ 2 ∷ 3 ∷ [] }
    ensures leaves { leaves family ≡ 2 ∷ 3 ∷ 5 ∷ 6 ∷ [] }
    ensures leaf_places { leaf_places family 1 ≡ 0 ∷ 1 ∷ [] }
    ensures first_children { map (first_child family) (range_with_len 0 7) ≡ Some 1 ∷ Some 2 ∷ None ∷ None ∷ Some 5 ∷ None ∷ None ∷ [] }
    ensures next_siblings { map (next_sibling family) (range_with_len 0 7) ≡ None ∷ Some 4 ∷ Some 3 ∷ None ∷ Some 6 ∷ None ∷ None ∷ [] }
    ensures cuts { map (cut family) (range_with_len 0 3) ≡ (0 ∷ []) ∷ (1 ∷ 4 ∷ 6 ∷ []) ∷ (2 ∷ 3 ∷ 5 ∷ 6 ∷ []) ∷ [] }
    ensures found { node_named family (101 ∷ []) ≡ Some 4 }
    ensures not_found { node_named family (104 ∷ []) ≡ None }
    ensures accepted { tree_fault family_lines ≡ None }
    ensures no_line { tree_fault [] ≡ Some Empty }
    ensures deep_root { tree_fault (line 1 97 ∷ line 0 98 ∷ []) ≡ Some Root }
    ensures second_root { tree_fault (line 0 97 ∷ line 1 98 ∷ line 0 99 ∷ []) ≡ Some (Depth 2) }
    ensures leap { tree_fault (line 0 97 ∷ line 2 98 ∷ []) ≡ Some (Depth 1) }
    ensures nine_nodes_deep { tree_fault (chain 9) ≡ None }
    ensures ten_nodes_deep { tree_fault (chain 10) ≡ Some (Depth 9) }
    ensures repeated_name { tree_fault (line 0 97 ∷ line 1 98 ∷ line 1 98 ∷ line 0 99 ∷ []) ≡ Some (Name 2) }
    ensures depth_before_name { tree_fault (line 0 97 ∷ line 2 97 ∷ []) ≡ Some (Depth 1) }
{}

/// A tree whose numbers are not its places, the same with a leaf more, and numbers that are refused.
pub fn worked_numbers()
    ensures accepted { dim_fault made_in_turn ≡ None }
    ensures places { map (place_of made_in_turn) (range_with_len 0 8) ≡ Some 0 ∷ Some 4 ∷ Some 1 ∷ Some 3 ∷ Some 2 ∷ Some 5 ∷ Some 6 ∷ None ∷ [] }
    ensures parents { map (parent made_in_turn) (range_with_len 0 7) ≡ None ∷ Some 0 ∷ Some 0 ∷ Some 2 ∷ Some 2 ∷ Some 1 ∷ Some 0 ∷ [] }
    ensures under { filter (λ x. is_under made_in_turn x 2) (range_with_len 0 7) ≡ 2 ∷ 3 ∷ 4 ∷ [] }
    ensures leaves { leaves made_in_turn ≡ 4 ∷ 3 ∷ 5 ∷ 6 ∷ [] }
    ensures leaf_places { map (leaf_places made_in_turn) (range_with_len 1 3) ≡ (2 ∷ []) ∷ (0 ∷ 1 ∷ []) ∷ (1 ∷ []) ∷ [] }
    ensures first_children { map (first_child made_in_turn) (range_with_len 0 4) ≡ Some 2 ∷ Some 5 ∷ Some 4 ∷ None ∷ [] }
    ensures next_siblings { map (next_sibling made_in_turn) (range_with_len 0 5) ≡ None ∷ Some 6 ∷ Some 1 ∷ None ∷ Some 3 ∷ [] }
    ensures cuts { map (cut made_in_turn) (range_with_len 1 2) ≡ (2 ∷ 1 ∷ 6 ∷ []) ∷ (4 ∷ 3 ∷ 5 ∷ 6 ∷ []) ∷ [] }
    ensures found { node_named made_in_turn (101 ∷ []) ≡ Some 1 }
    ensures grown_behind_children { grown made_in_turn 2 (122 ∷ []) ≡ node 0 97 0 ∷ node 1 98 2 ∷ node 2 99 4 ∷ node 2 100 3 ∷ node 2 122 7 ∷ node 1 101 1 ∷ node 2 102 5 ∷ node 1 103 6 ∷ [] }
    ensures grown_under_the_root { grown made_in_turn 0 (122 ∷ []) ≡ node 0 97 0 ∷ node 1 98 2 ∷ node 2 99 4 ∷ node 2 100 3 ∷ node 1 101 1 ∷ node 2 102 5 ∷ node 1 103 6 ∷ node 1 122 7 ∷ [] }
    ensures grown_under_a_leaf { grown made_in_turn 4 (122 ∷ []) ≡ node 0 97 0 ∷ node 1 98 2 ∷ node 2 99 4 ∷ node 3 122 7 ∷ node 2 100 3 ∷ node 1 101 1 ∷ node 2 102 5 ∷ node 1 103 6 ∷ [] }
    ensures grown_leaves { leaves (grown made_in_turn 4 (122 ∷ [])) ≡ 7 ∷ 3 ∷ 5 ∷ 6 ∷ [] }
    ensures repeated { dim_fault (node 0 97 0 ∷ node 1 98 1 ∷ node 1 99 1 ∷ []) ≡ Some Number }
    ensures too_large { dim_fault (node 0 97 0 ∷ node 1 98 2 ∷ []) ≡ Some Number }
    ensures not_above_parent { dim_fault (node 0 97 0 ∷ node 1 98 2 ∷ node 2 99 1 ∷ []) ≡ Some Number }
    ensures root_not_first { dim_fault (node 0 97 1 ∷ node 1 98 0 ∷ []) ≡ Some Number }
    ensures lines_before_numbers { dim_fault (node 0 97 1 ∷ node 2 98 1 ∷ []) ≡ Some (Depth 1) }
{}
