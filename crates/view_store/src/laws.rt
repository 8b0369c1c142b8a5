//! Laws of views, and examples that are computed from the definitions. The functions do nothing: each law is the contract.
ghost use Rattle.std.specs.Prelude.{◌≡◌, ℕ, ◌-◌, ◌≤◌, All, List, [], ◌∷◌, false, filter, length, map, pos, true};
ghost use Rattle.std.specs.List.{range_with_len};
ghost use Rattle.cube_model.specs.Allocation.{ExtendedFact};
ghost use Rattle.cube_model.specs.Answer.{answer};
ghost use Rattle.cube_model.specs.Tree.{Dimension, IsTree};
ghost use Rattle.group_sum.specs.Examples.{one_sum};
ghost use Rattle.group_sum.specs.Terms.{TermList};
ghost use Rattle.region_algebra.specs.Examples.{small_space};
ghost use Rattle.region_algebra.specs.Space.{IsRegion};
ghost use Rattle.region_algebra.specs.declared.view_def.ViewDef.{ViewDef};
ghost use Rattle.view_store.specs.declared.change.ViewChange.{ViewChange};
ghost use Rattle.view_store.specs.Changes.{IsAfter, facts_put, facts_taken_away};
ghost use Rattle.view_store.specs.Cuts.{cut_regions, entries_of, reaches_cuts};
ghost use Rattle.view_store.specs.Examples.{one_by_one, put_at, small_entry, small_view, three_at_once};
ghost use Rattle.view_store.specs.Facts.{FollowBy, IsViewOfFacts};
ghost use Rattle.view_store.specs.Rolling.{rolled_up, serves};
ghost use Rattle.view_store.specs.Views.{IsViewOf, ViewMap, is_in_view, listed, view_of};

/// A view without entries is that of no facts. Where the entries of a view are the answers of facts, they are those of the
/// facts after once changes are installed, if these take away and put what the facts after have less and more.
pub fn views_follow_their_facts()
    ensures none { (dims : List Dimension) (columns : ℕ) (def : ViewDef) → IsViewOfFacts dims [] (view_of columns def) }
    ensures kept { (dims : List Dimension) (changes : List ViewChange) (old new : ViewMap) (before after : List ExtendedFact)
        → IsAfter dims changes old new → IsViewOfFacts dims before old → FollowBy before (facts_taken_away changes) (facts_put changes) after → IsViewOfFacts dims after new }
{}

/// Where the entries of a view are the answers of facts, what the view makes of a region that it serves is the answer of the
/// facts there. Each cell of the region is in exactly one region of the view's cuts, and that one lies under it.
pub fn views_answer_as_their_facts()
    ensures { (dims : List Dimension) (facts : List ExtendedFact) (view : ViewMap) (region : List ℕ) → All IsTree dims → IsViewOfFacts dims facts view
        → IsRegion dims region → serves dims view.depths region ≡ true → rolled_up dims view region ≡ answer (view.columns - 1) dims facts region }
{}

/// A view's list is in the order of the product of its cuts, the first dimension slowest: where the entries of a view are the
/// answers of facts and each that it lists has a term, the list is the answers in the regions of the product, without the empty
/// ones. All of these are regions of the space.
pub fn views_list_in_the_order_of_their_cuts()
    ensures order { (dims : List Dimension) (facts : List ExtendedFact) (view : ViewMap) → All IsTree dims → IsViewOf dims view → IsViewOfFacts dims facts view
        → All (λ entry. 1 ≤ length entry.1.terms) (listed dims view)
        → listed dims view ≡ entries_of (λ region. record { columns = view.columns; terms = answer (view.columns - 1) dims facts region }) (cut_regions dims view.depths) }
    ensures regions { (terms_of : List ℕ → TermList) (dims : List Dimension) (depths : List ℕ) → All IsTree dims → length depths ≡ length dims
        → All (λ entry. IsRegion dims entry.0) (entries_of terms_of (cut_regions dims depths)) }
{}

/// The regions of products of cuts, and a view, that were worked out by hand: a leaf that lies less deep than a cut is in it, a
/// region is served where its nodes lie no deeper than the cuts, and entries under a region are merged. A region reaches the cuts
/// where its nodes lie no less deep or are leaves.
pub fn worked_views()
    ensures leaves { filter (is_in_view small_space (2 ∷ 1 ∷ [])) (range_with_len 0 21) ≡ 7 ∷ 8 ∷ 10 ∷ 11 ∷ 16 ∷ 17 ∷ 19 ∷ 20 ∷ [] }
    ensures inner { filter (is_in_view small_space (1 ∷ 0 ∷ [])) (range_with_len 0 21) ≡ 3 ∷ 12 ∷ 18 ∷ [] }
    ensures met { cut_regions small_space (1 ∷ 0 ∷ []) ≡ (1 ∷ 0 ∷ []) ∷ (4 ∷ 0 ∷ []) ∷ (6 ∷ 0 ∷ []) ∷ [] }
    ensures served { serves small_space (1 ∷ 0 ∷ []) (0 ∷ 0 ∷ []) ≡ true }
    ensures too_deep { serves small_space (1 ∷ 0 ∷ []) (1 ∷ 1 ∷ []) ≡ false }
    ensures listed { listed small_space small_view ≡ ((1 ∷ 0 ∷ []), small_entry 1 2 (pos 400)) ∷ ((6 ∷ 0 ∷ []), small_entry 3 1 (pos 200)) ∷ [] }
    ensures whole { rolled_up small_space small_view (0 ∷ 0 ∷ []) ≡ one_sum 1 2 (pos 400) ∷ one_sum 3 1 (pos 200) ∷ [] }
    ensures part { rolled_up small_space small_view (1 ∷ 0 ∷ []) ≡ one_sum 1 2 (pos 400) ∷ [] }
    ensures nothing { rolled_up small_space small_view (4 ∷ 0 ∷ []) ≡ [] }
    ensures reached { map (reaches_cuts small_space (2 ∷ 0 ∷ [])) ((1 ∷ 0 ∷ []) ∷ (2 ∷ 1 ∷ []) ∷ (6 ∷ 0 ∷ []) ∷ []) ≡ false ∷ true ∷ true ∷ [] }
{}

/// A change of three facts that was worked out by hand: two thirds of each lie in cell 0, and a third in cell 2. Put at once they
/// add up to what they do one after another, in the regions of several cuts; they take nothing away.
pub fn worked_changes()
    ensures facts { length (facts_put three_at_once) ≡ 3 }
    ensures nothing_taken { facts_taken_away three_at_once ≡ [] }
    ensures at_once { map (put_at three_at_once) (3 ∷ 7 ∷ 10 ∷ 12 ∷ []) ≡ (one_sum 3 9 (pos 1830) ∷ []) ∷ (one_sum 3 6 (pos 1220) ∷ []) ∷ (one_sum 3 3 (pos 610) ∷ []) ∷ [] ∷ [] }
    ensures one_by_one { map (put_at one_by_one) (3 ∷ 7 ∷ 10 ∷ 12 ∷ []) ≡ map (put_at three_at_once) (3 ∷ 7 ∷ 10 ∷ 12 ∷ []) }
{}
