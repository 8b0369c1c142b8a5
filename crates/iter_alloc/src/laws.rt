//! Laws. The functions do nothing: each law is the contract.
ghost use Rattle.std.specs.Prelude.{◌≡◌, ◌≤◌, ◌*◌, ℕ, List, [], ◌∷◌, Bool, true, filter, length, pos, take};
ghost use Rattle.std.specs.List.{Contains};
ghost use Rattle.cube_model.specs.declared.edit.Fact.{Fact};
ghost use Rattle.cube_model.specs.Tree.{Dimension};
ghost use Rattle.region_algebra.specs.Examples.{small_space};
ghost use Rattle.region_algebra.specs.Space.{common_cells};
ghost use Rattle.fact_groups.specs.Examples.{five_facts};
ghost use Rattle.fact_records.specs.FactList.{IsAscending};
ghost use Rattle.iter_alloc.specs.Components.{AreComponents, Chain, Labelled, facts_of, labelled, labels};
ghost use Rattle.iter_alloc.specs.Counting.{cells_in_all};
ghost use Rattle.iter_alloc.specs.Examples.{joining_facts, lone_fact};
ghost use Rattle.iter_alloc.specs.Iterated.{iterated_all, portion, portion_from};
ghost use Rattle.iter_alloc.specs.Rounds.{WHOLE_FACT, has_cell, level_at, level_from};
ghost use Rattle.iter_alloc.specs.Touching.{IsClosed};

/// The labels of facts that are taken one after another tell the components: two facts have one label exactly where a chain of
/// facts that touch goes from one to the other, and it is the least id that a chain reaches. No other labels do, and facts that
/// are kept by their labels are whole components.
pub fn labels_are_components()
    ensures facts { (dims : List Dimension) (facts : List Fact) → IsAscending facts → facts_of (labelled dims facts) ≡ facts }
    ensures components { (dims : List Dimension) (facts : List Fact) → IsAscending facts → AreComponents dims (labelled dims facts) }
    ensures chained { (dims : List Dimension) (facts : List Fact) → IsAscending facts → (x y : Labelled) → Contains (labelled dims facts) x → Contains (labelled dims facts) y
        → x.label ≡ y.label → Chain dims facts x.fact y.fact }
    ensures equal { (dims : List Dimension) (facts : List Fact) → IsAscending facts → (x y : Labelled) → Contains (labelled dims facts) x → Contains (labelled dims facts) y
        → Chain dims facts x.fact y.fact → x.label ≡ y.label }
    ensures least { (dims : List Dimension) (facts : List Fact) → IsAscending facts → (x y : Labelled) → Contains (labelled dims facts) x → Contains (labelled dims facts) y
        → Chain dims facts x.fact y.fact → x.label ≤ y.fact.id }
    ensures alone { (dims : List Dimension) (facts : List Fact) → IsAscending facts → (ls : List Labelled) → AreComponents dims ls → facts_of ls ≡ facts → ls ≡ labelled dims facts }
    ensures closed { (dims : List Dimension) (ls : List Labelled) → AreComponents dims ls → (label : Fact → ℕ) → ((x : Labelled) → Contains ls x → label x.fact ≡ x.label) → (hot : ℕ → Bool)
        → IsClosed dims (λ f. hot (label f)) (facts_of ls) }
{}

/// Rounds in which only whole components give leave the cells of their facts as rounds of all facts do, and so what of these
/// facts is in a region. A fact that shares no cell with the region has nothing in it, and no cell stands higher than all facts
/// together would make it.
pub fn rounds_of_components_suffice()
    ensures levels { (dims : List Dimension) (keep : Fact → Bool) (facts : List Fact) → IsClosed dims keep facts → (n cell : ℕ) (f : Fact)
        → Contains facts f → keep f ≡ true → has_cell dims cell f ≡ true → level_from dims facts (filter keep facts) n cell ≡ level_at dims facts n cell }
    ensures portions { (dims : List Dimension) (keep : Fact → Bool) (facts : List Fact) → IsClosed dims keep facts → (rounds : ℕ) (region : List ℕ) (f : Fact)
        → Contains facts f → keep f ≡ true → portion_from dims facts (filter keep facts) rounds region f ≡ portion dims facts rounds region f }
    ensures apart { (dims : List Dimension) (facts : List Fact) (rounds : ℕ) (region : List ℕ) (f : Fact) → common_cells dims f.region region ≡ [] → portion dims facts rounds region f ≡ 0 }
    ensures bounds { (dims : List Dimension) (keep : Fact → Bool) (facts : List Fact) (n cell : ℕ) → level_from dims facts (filter keep facts) n cell ≤ WHOLE_FACT * length facts }
{}

/// Rounds and components that were worked out by hand. Two facts are somewhere in two cells, at which two facts and one lie.
pub fn worked_iteration()
    ensures begun { level_at small_space five_facts 0 0 ≡ 2097152 }
    ensures first { level_at small_space five_facts 1 0 ≡ 3495252 }
    ensures second { level_at small_space five_facts 2 2 ≡ 1747626 }
    ensures iterated { iterated_all small_space five_facts 1 (2 ∷ 1 ∷ []) 2 ≡ pos 3495252 ∷ pos 845850900 ∷ [] }
    ensures even { iterated_all small_space lone_fact 1 (2 ∷ 1 ∷ []) 2 ≡ pos 524288 ∷ pos 3670016 ∷ [] }
    ensures cells { cells_in_all small_space five_facts ≡ 4 }
    ensures labels { labels small_space five_facts ≡ 1 ∷ 2 ∷ 3 ∷ 4 ∷ 4 ∷ [] }
    ensures joined { labels small_space joining_facts ≡ 1 ∷ 1 ∷ 1 ∷ [] }
    ensures apart { labels small_space (take 2 joining_facts) ≡ 1 ∷ 2 ∷ [] }
{}
