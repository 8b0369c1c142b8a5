//! Laws of facts in groups. The functions do nothing: each law is the contract.
ghost use Rattle.std.specs.Prelude.{◌≡◌, ◌+◌, ◌*◌, ◌==◌, ◌<◌, ◌≤◌, ℕ, Bool, List, [], ◌∷◌, true, false, None, Some, map, if◌then◌else◌, All, AllPairs, IfSome, filter, find, is_some, length, ℤ, pos, ◌+ℤ◌, ◌*ℤ◌};
ghost use Rattle.std.specs.List.{count_by, flat_map, list_any, sum_by};
ghost use Rattle.std.specs.List.Sorted.{IsStrictlyIncreasing};
ghost use Rattle.std.specs.Option.{option_map, option_map_or};
ghost use Rattle.cube_model.specs.declared.edit.Edit.{Edit};
ghost use Rattle.cube_model.specs.declared.edit.Fact.{Fact};
ghost use Rattle.cube_model.specs.Allocation.{Allocation, Policy, allocation, by_count, by_sum, extended, row_count, spread, spread_evenly, stat_of, uniform};
ghost use Rattle.cube_model.specs.Answer.{answer, count_at, sum_at, total_by};
ghost use Rattle.cube_model.specs.Ascending.{ascends_from};
ghost use Rattle.cube_model.specs.Cells.{cells_of, is_among, is_single};
ghost use Rattle.cube_model.specs.Difference.{is_same, refreshed};
ghost use Rattle.cube_model.specs.Facts.{after, has_id, is_precise, lies_at};
ghost use Rattle.cube_model.specs.Tree.{Dimension, IsTree};
ghost use Rattle.region_algebra.specs.Examples.{small_space};
ghost use Rattle.region_algebra.specs.Space.{IsRegion, code_of};
ghost use Rattle.fact_groups.specs.Changes.{HasCodesOf, changed_cells, covers_any, holds_any, is_changed, is_reweighed, reweighed_cells, touched_cells};
ghost use Rattle.fact_groups.specs.Edits.{edited_id, given, taken};
ghost use Rattle.fact_groups.specs.Examples.{five_facts, group_of, move_third, put_sixth, put_third, revalue_second, spread_over, three_codes, valued_at, withdraw_fourth};
ghost use Rattle.fact_groups.specs.Groups.{AreGrouped, Group, HaveSameGroupsBut, answer_in, column_sums, count_in, fact_over, facts_with, group_at, group_facts, group_rows, groups_at, has_code, spread_at, sum_in};
ghost use Rattle.fact_groups.specs.Partition.{IsPartition, held_by};
ghost use Rattle.fact_groups.specs.Refreshed.{imprecise_ids, is_new_or_moved, is_refreshed, respread_codes};

/// How a fact is spread depends on its region alone, so facts of one region have one allocation between them.
pub fn equal_regions_have_equal_spreads()
    ensures spread { (policy : Policy) (dims : List Dimension) (facts : List Fact) (fact : Fact) → allocation policy dims facts fact ≡ spread_at policy dims facts fact.region }
    ensures equal { (policy : Policy) (dims : List Dimension) (facts : List Fact) (a b : Fact) → a.region ≡ b.region → allocation policy dims facts a ≡ allocation policy dims facts b }
{}

/// Where each of some items is held by exactly one of some keys, what is summed or counted over the items is the sum over the
/// keys of that over the items which each holds.
pub fn sums_over_items_are_sums_over_keys<K, X>()
    ensures sums { (holds : K → X → Bool) (keys : List K) (f : X → ℕ) (items : List X) → IsPartition holds keys items
        → sum_by f items ≡ sum_by (λ key. sum_by f (held_by holds key items)) keys }
    ensures totals { (holds : K → X → Bool) (keys : List K) (f : X → ℤ) (items : List X) → IsPartition holds keys items
        → total_by f items ≡ total_by (λ key. total_by f (held_by holds key items)) keys }
    ensures counts { (holds : K → X → Bool) (keys : List K) (p : X → Bool) (items : List X) → IsPartition holds keys items
        → count_by p items ≡ sum_by (λ key. count_by p (held_by holds key items)) keys }
    ensures lengths { (holds : K → X → Bool) (keys : List K) (items : List X) → IsPartition holds keys items
        → length items ≡ sum_by (λ key. length (held_by holds key items)) keys }
{}

/// Where what is summed depends on the key alone, it is the key's value times the number of items that it holds; and where it
/// is a number of the item times one of the key, that is taken once for each key.
pub fn values_of_keys_are_taken_once<K, X>()
    ensures values { (holds : K → X → Bool) (keys : List K) (f : X → ℕ) (value : K → ℕ) (items : List X) → IsPartition holds keys items
        → All (λ item. (key : K) → holds key item ≡ true → f item ≡ value key) items
        → sum_by f items ≡ sum_by (λ key. length (held_by holds key items) * value key) keys }
    ensures shares { (holds : K → X → Bool) (keys : List K) (f h : X → ℤ) (share : K → ℕ) (items : List X) → IsPartition holds keys items
        → All (λ item. (key : K) → holds key item ≡ true → f item ≡ h item *ℤ pos (share key)) items
        → total_by f items ≡ total_by (λ key. total_by h (held_by holds key items) *ℤ pos (share key)) keys }
{}

/// What an edit does, accepted or not, to what facts in order of their ids add up to, and to their number. It has one
/// old fact at most, and one new fact at most.
pub fn edits_move_sums_by_one_fact()
    ensures sums { (f : Fact → ℕ) (edit : Edit) (facts : List Fact) → AllPairs (λ f g. f.id < g.id) facts
        → sum_by f (after edit facts) + option_map_or f (taken edit facts) 0 ≡ sum_by f facts + option_map_or f (given edit) 0 }
    ensures totals { (f : Fact → ℤ) (edit : Edit) (facts : List Fact) → AllPairs (λ f g. f.id < g.id) facts
        → total_by f (after edit facts) +ℤ option_map_or f (taken edit facts) (pos 0) ≡ total_by f facts +ℤ option_map_or f (given edit) (pos 0) }
    ensures lengths { (edit : Edit) (facts : List Fact) → AllPairs (λ f g. f.id < g.id) facts
        → length (after edit facts) + option_map_or (λ f. 1) (taken edit facts) 0 ≡ length facts + option_map_or (λ f. 1) (given edit) 0 }
{}

/// What an edit does to the facts of a region's code, which are those of one group: their number, and the sum of any number of
/// each of them.
pub fn edits_move_groups_by_one_fact()
    ensures counts { (dims : List Dimension) (code : ℕ) (edit : Edit) (facts : List Fact) → AllPairs (λ f g. f.id < g.id) facts
        → length (facts_with dims code (after edit facts)) + option_map_or (λ f. if has_code dims code f then 1 else 0) (taken edit facts) 0
        ≡ length (facts_with dims code facts) + option_map_or (λ f. if has_code dims code f then 1 else 0) (given edit) 0 }
    ensures totals { (value : Fact → ℤ) (dims : List Dimension) (code : ℕ) (edit : Edit) (facts : List Fact) → AllPairs (λ f g. f.id < g.id) facts
        → total_by value (facts_with dims code (after edit facts)) +ℤ option_map_or (λ f. if has_code dims code f then value f else pos 0) (taken edit facts) (pos 0)
        ≡ total_by value (facts_with dims code facts) +ℤ option_map_or (λ f. if has_code dims code f then value f else pos 0) (given edit) (pos 0) }
{}

/// The facts after an edit, accepted or not: the fact of each id, what holds of each, and their order.
pub fn edits_replace_one_fact()
    ensures found { (edit : Edit) (facts : List Fact) (id : ℕ)
        → find (λ f. f.id == id) (after edit facts) ≡ (if edited_id edit == id then given edit else find (λ f. f.id == id) facts) }
    ensures there { (edit : Edit) (facts : List Fact) (id : ℕ)
        → has_id id (after edit facts) ≡ (if edited_id edit == id then is_some (given edit) else has_id id facts) }
    ensures each { (p : Fact → Bool) (edit : Edit) (facts : List Fact) → All (λ f. p f ≡ true) facts → IfSome (given edit) (λ f. p f ≡ true)
        → All (λ f. p f ≡ true) (after edit facts) }
    ensures ascending { (edit : Edit) (facts : List Fact) → AllPairs (λ f g. f.id < g.id) facts → AllPairs (λ f g. f.id < g.id) (after edit facts) }
{}

/// What an edit, accepted or not, does to the statistics of a cell. It touches at most two cells, those of the precise facts
/// among its old fact and its new fact. It changes those of them that have other statistics afterwards, and reweighs
/// those that weigh otherwise.
pub fn edits_change_two_cells_at_most()
    ensures counts { (policy : Policy) (dims : List Dimension) (edit : Edit) (facts : List Fact) → AllPairs (λ f g. f.id < g.id) facts → (cell : ℕ)
        → (stat_of policy dims (after edit facts) cell).count + option_map_or (λ f. if lies_at dims cell f then 1 else 0) (taken edit facts) 0
        ≡ (stat_of policy dims facts cell).count + option_map_or (λ f. if lies_at dims cell f then 1 else 0) (given edit) 0 }
    ensures sums { (policy : Policy) (dims : List Dimension) (edit : Edit) (facts : List Fact) → AllPairs (λ f g. f.id < g.id) facts → (cell : ℕ)
        → (stat_of policy dims (after edit facts) cell).sum + option_map_or (λ f. if lies_at dims cell f then policy.adds f.cols else 0) (taken edit facts) 0
        ≡ (stat_of policy dims facts cell).sum + option_map_or (λ f. if lies_at dims cell f then policy.adds f.cols else 0) (given edit) 0 }
    ensures untouched { (policy : Policy) (dims : List Dimension) (edit : Edit) (facts : List Fact) → AllPairs (λ f g. f.id < g.id) facts → (cell : ℕ)
        → is_among (touched_cells dims edit facts) cell ≡ false → stat_of policy dims (after edit facts) cell ≡ stat_of policy dims facts cell }
    ensures changed { (policy : Policy) (dims : List Dimension) (edit : Edit) (facts : List Fact) → AllPairs (λ f g. f.id < g.id) facts → (cell : ℕ)
        → is_among (changed_cells policy dims edit facts) cell ≡ is_changed policy dims edit facts cell }
    ensures unchanged { (policy : Policy) (dims : List Dimension) (edit : Edit) (facts : List Fact) → AllPairs (λ f g. f.id < g.id) facts → (cell : ℕ)
        → is_among (changed_cells policy dims edit facts) cell ≡ false → stat_of policy dims (after edit facts) cell ≡ stat_of policy dims facts cell }
    ensures reweighed { (policy : Policy) (dims : List Dimension) (edit : Edit) (facts : List Fact) → AllPairs (λ f g. f.id < g.id) facts → (cell : ℕ)
        → is_among (reweighed_cells policy dims edit facts) cell ≡ is_reweighed policy dims edit facts cell }
    ensures few { (dims : List Dimension) (edit : Edit) (facts : List Fact) → length (touched_cells dims edit facts) ≤ 2 }
    ensures few_changed { (policy : Policy) (dims : List Dimension) (edit : Edit) (facts : List Fact) → length (changed_cells policy dims edit facts) ≤ 2 }
    ensures few_reweighed { (policy : Policy) (dims : List Dimension) (edit : Edit) (facts : List Fact) → length (reweighed_cells policy dims edit facts) ≤ 2 }
    ensures ascending { (dims : List Dimension) (edit : Edit) (facts : List Fact) → ascends_from (λ cell. cell) 0 (touched_cells dims edit facts) ≡ true }
    ensures ascending_changed { (policy : Policy) (dims : List Dimension) (edit : Edit) (facts : List Fact) → ascends_from (λ cell. cell) 0 (changed_cells policy dims edit facts) ≡ true }
    ensures ascending_reweighed { (policy : Policy) (dims : List Dimension) (edit : Edit) (facts : List Fact) → ascends_from (λ cell. cell) 0 (reweighed_cells policy dims edit facts) ≡ true }
{}

/// The cells that an edit, accepted or not, reweighs are some of those that it changes, in the same order, so no sum over them is
/// greater.
pub fn reweighed_cells_are_changed()
    ensures some { (policy : Policy) (dims : List Dimension) (edit : Edit) (facts : List Fact)
        → reweighed_cells policy dims edit facts ≡ filter (is_reweighed policy dims edit facts) (changed_cells policy dims edit facts) }
    ensures among { (policy : Policy) (dims : List Dimension) (edit : Edit) (facts : List Fact) (cell : ℕ)
        → is_among (reweighed_cells policy dims edit facts) cell ≡ true → is_among (changed_cells policy dims edit facts) cell ≡ true }
    ensures sums { (f : ℕ → ℕ) (policy : Policy) (dims : List Dimension) (edit : Edit) (facts : List Fact)
        → sum_by f (reweighed_cells policy dims edit facts) ≤ sum_by f (changed_cells policy dims edit facts) }
{}

/// A region is spread after an edit, accepted or not, as before it where it holds no cell that the edit reweighs, whatever the
/// policy; and a region of one cell is spread evenly, whatever the facts. Weights that agree on cells spread alike over them.
pub fn other_regions_keep_their_spread()
    ensures kept { (policy : Policy) (dims : List Dimension) (edit : Edit) (facts : List Fact) → AllPairs (λ f g. f.id < g.id) facts → (region : List ℕ)
        → holds_any dims region (reweighed_cells policy dims edit facts) ≡ false → spread_at policy dims (after edit facts) region ≡ spread_at policy dims facts region }
    ensures precise { (policy : Policy) (dims : List Dimension) (facts : List Fact) (region : List ℕ) → is_single (cells_of dims region) ≡ true
        → spread_at policy dims facts region ≡ spread_evenly (cells_of dims region) }
    ensures weights { (v w : ℕ → ℕ) (cells : List ℕ) → All (λ cell. v cell ≡ w cell) cells → spread v cells ≡ spread w cells }
{}

/// Where facts are grouped by the codes of their regions, their rows and the numerators of their answers at each denominator are
/// those of the groups, and so are whole answers. Codes that ascend and are there for each fact group them. The group of a
/// region's code is there where a fact has the region, and is spread as the region is.
pub fn groups_stand_for_their_facts()
    ensures rows { (policy : Policy) (columns : ℕ) (dims : List Dimension) (facts : List Fact) (codes : List ℕ) → AreGrouped dims facts codes
        → row_count (extended policy dims facts) ≡ group_rows (groups_at policy columns dims facts codes) }
    ensures counts { (policy : Policy) (columns : ℕ) (dims : List Dimension) (facts : List Fact) (codes : List ℕ) → AreGrouped dims facts codes → (cells : List ℕ) (den : ℕ)
        → count_at cells (extended policy dims facts) den ≡ count_in cells (groups_at policy columns dims facts codes) den }
    ensures sums { (policy : Policy) (columns : ℕ) (dims : List Dimension) (facts : List Fact) (codes : List ℕ) → AreGrouped dims facts codes → (cells : List ℕ) (column den : ℕ) → column < columns
        → sum_at cells (extended policy dims facts) column den ≡ sum_in cells (groups_at policy columns dims facts codes) column den }
    ensures answers { (policy : Policy) (columns : ℕ) (dims : List Dimension) (facts : List Fact) (codes : List ℕ) → AreGrouped dims facts codes → (region : List ℕ)
        → answer columns dims (extended policy dims facts) region ≡ answer_in columns (cells_of dims region) (groups_at policy columns dims facts codes) }
    ensures grouped { (dims : List Dimension) (facts : List Fact) (codes : List ℕ) → IsStrictlyIncreasing codes → All (λ f. list_any (λ code. code_of dims f.region == code) codes ≡ true) facts
        → IsPartition (has_code dims) codes facts }
    ensures regions { (policy : Policy) (columns : ℕ) (dims : List Dimension) (facts : List Fact) (region : List ℕ) → All IsTree dims → All (λ f. IsRegion dims f.region) facts → IsRegion dims region
        → group_at policy columns dims facts (code_of dims region)
        ≡ (if length (facts_with dims (code_of dims region) facts) == 0 then None
        else Some (record { spread = spread_at policy dims facts region; count = length (facts_with dims (code_of dims region) facts); sums = column_sums columns (facts_with dims (code_of dims region) facts) })) }
    ensures spreads { (policy : Policy) (columns : ℕ) (dims : List Dimension) (facts : List Fact) (id : ℕ) → All IsTree dims → All (λ f. IsRegion dims f.region) facts
        → IfSome (find (λ f. f.id == id) facts) (λ f. option_map (λ g. g.spread) (group_at policy columns dims facts (code_of dims f.region)) ≡ Some (spread_at policy dims facts f.region)) }
{}

/// A group that holds neither the old fact nor the new fact of an edit, accepted or not, has the facts that it had, and
/// stays as it was where its region holds no cell that the edit reweighs.
pub fn groups_elsewhere_stay()
    ensures members { (p : Fact → Bool) (edit : Edit) (facts : List Fact) → AllPairs (λ f g. f.id < g.id) facts
        → option_map_or p (taken edit facts) false ≡ false → option_map_or p (given edit) false ≡ false → filter p (after edit facts) ≡ filter p facts }
    ensures groups { (policy : Policy) (columns : ℕ) (dims : List Dimension) (edit : Edit) (facts : List Fact) → AllPairs (λ f g. f.id < g.id) facts → (code : ℕ)
        → option_map_or (has_code dims code) (taken edit facts) false ≡ false → option_map_or (has_code dims code) (given edit) false ≡ false
        → All (λ f. has_code dims code f ≡ true → holds_any dims f.region (reweighed_cells policy dims edit facts) ≡ false) facts
        → group_at policy columns dims (after edit facts) code ≡ group_at policy columns dims facts code }
{}

/// An edit, accepted or not, changes no group but at the codes of some regions. They are the regions of its old fact
/// and its new fact, and of the imprecise facts that cover a cell which it reweighs.
pub fn groups_stay_but_at_the_codes_of_an_edit()
    ensures { (policy : Policy) (columns : ℕ) (dims : List Dimension) (edit : Edit) (facts : List Fact) (codes : List ℕ) → AllPairs (λ f g. f.id < g.id) facts
        → HasCodesOf policy dims edit facts codes → HaveSameGroupsBut codes policy columns dims facts (after edit facts) }
{}

/// Where the groups of two lists of facts are the same at all but some codes, those of the codes at which they are the same as well
/// can be left out.
pub fn codes_of_equal_groups_can_be_left_out()
    ensures same { (policy : Policy) (columns : ℕ) (dims : List Dimension) (facts later : List Fact) (codes : List ℕ) (keeps : ℕ → Bool) → HaveSameGroupsBut codes policy columns dims facts later
        → ((code : ℕ) → keeps code ≡ false → group_at policy columns dims later code ≡ group_at policy columns dims facts code) → HaveSameGroupsBut (filter keeps codes) policy columns dims facts later }
    ensures ascending { (codes : List ℕ) (keeps : ℕ → Bool) → IsStrictlyIncreasing codes → IsStrictlyIncreasing (filter keeps codes) }
{}

/// Where the groups of two lists of facts are the same at all but some codes, their numbers of rows differ by the rows of the
/// groups at these; and so do any two sums over numbers whose terms are the same at all but some of these.
pub fn rows_differ_by_the_groups_that_differ()
    ensures rows { (policy : Policy) (columns : ℕ) (dims : List Dimension) (facts later : List Fact) (codes : List ℕ) → All IsTree dims
        → All (λ f. IsRegion dims f.region) facts → All (λ f. IsRegion dims f.region) later → IsStrictlyIncreasing codes
        → HaveSameGroupsBut codes policy columns dims facts later
        → row_count (extended policy dims later) + group_rows (groups_at policy columns dims facts codes) ≡ row_count (extended policy dims facts) + group_rows (groups_at policy columns dims later codes) }
    ensures sums { (f g : ℕ → ℕ) (a b : ℕ) (some all : List ℕ) → ascends_from (λ x. x) a some ≡ true → ascends_from (λ x. x) b all ≡ true
        → ((x : ℕ) → is_among some x ≡ true → is_among all x ≡ true) → ((x : ℕ) → is_among some x ≡ false → f x ≡ g x)
        → sum_by g all + sum_by f some ≡ sum_by f all + sum_by g some }
{}

/// Where the groups of two lists of facts are the same at all but some codes, the numerators of their answers differ by those of
/// the groups at these.
pub fn answers_differ_by_the_groups_that_differ()
    ensures counts { (policy : Policy) (columns : ℕ) (dims : List Dimension) (facts later : List Fact) (codes : List ℕ) → All IsTree dims
        → All (λ f. IsRegion dims f.region) facts → All (λ f. IsRegion dims f.region) later → IsStrictlyIncreasing codes → HaveSameGroupsBut codes policy columns dims facts later
        → (cells : List ℕ) (den : ℕ) → count_at cells (extended policy dims later) den + count_in cells (groups_at policy columns dims facts codes) den
        ≡ count_at cells (extended policy dims facts) den + count_in cells (groups_at policy columns dims later codes) den }
    ensures sums { (policy : Policy) (columns : ℕ) (dims : List Dimension) (facts later : List Fact) (codes : List ℕ) → All IsTree dims
        → All (λ f. IsRegion dims f.region) facts → All (λ f. IsRegion dims f.region) later → IsStrictlyIncreasing codes → HaveSameGroupsBut codes policy columns dims facts later
        → (cells : List ℕ) (column den : ℕ) → column < columns → sum_at cells (extended policy dims later) column den +ℤ sum_in cells (groups_at policy columns dims facts codes) column den
        ≡ sum_at cells (extended policy dims facts) column den +ℤ sum_in cells (groups_at policy columns dims later codes) column den }
{}

/// A group has a fact at least. Such groups answer as so many facts do that are spread alike, of which one has the sums of the
/// columns as its values and the others have zeros.
pub fn groups_answer_as_facts()
    ensures some { (policy : Policy) (columns : ℕ) (dims : List Dimension) (facts : List Fact) (codes : List ℕ) → All (λ g. 1 ≤ g.count) (groups_at policy columns dims facts codes) }
    ensures counts { (groups : List Group) → All (λ g. 1 ≤ g.count) groups → (cells : List ℕ) (den : ℕ) → count_at cells (flat_map group_facts groups) den ≡ count_in cells groups den }
    ensures sums { (groups : List Group) → (cells : List ℕ) (column den : ℕ) → sum_at cells (flat_map group_facts groups) column den ≡ sum_in cells groups column den }
{}

/// Where the groups of two lists of facts are the same at all but some codes, and no fact has more values than there are columns,
/// the later facts are the earlier ones without the facts of the groups that were at these codes and with those of the groups that
/// are: inside any cells they add up to as much, at every denominator.
pub fn facts_follow_by_the_groups_that_differ()
    ensures counts { (policy : Policy) (columns : ℕ) (dims : List Dimension) (facts later : List Fact) (codes : List ℕ) → All IsTree dims
        → All (λ f. IsRegion dims f.region) facts → All (λ f. IsRegion dims f.region) later → IsStrictlyIncreasing codes → HaveSameGroupsBut codes policy columns dims facts later
        → (cells : List ℕ) (den : ℕ) → count_at cells (extended policy dims later) den + count_at cells (flat_map group_facts (groups_at policy columns dims facts codes)) den
        ≡ count_at cells (extended policy dims facts) den + count_at cells (flat_map group_facts (groups_at policy columns dims later codes)) den }
    ensures sums { (policy : Policy) (columns : ℕ) (dims : List Dimension) (facts later : List Fact) (codes : List ℕ) → All IsTree dims
        → All (λ f. IsRegion dims f.region) facts → All (λ f. IsRegion dims f.region) later → IsStrictlyIncreasing codes → HaveSameGroupsBut codes policy columns dims facts later
        → All (λ f. length f.cols ≤ columns) facts → All (λ f. length f.cols ≤ columns) later
        → (cells : List ℕ) (column den : ℕ) → sum_at cells (extended policy dims later) column den +ℤ sum_at cells (flat_map group_facts (groups_at policy columns dims facts codes)) column den
        ≡ sum_at cells (extended policy dims facts) column den +ℤ sum_at cells (flat_map group_facts (groups_at policy columns dims later codes)) column den }
{}

/// Two allocations are reported to be the same exactly where they are equal.
pub fn same_allocations_are_equal()
    ensures equal { (a b : Allocation) → is_same a b ≡ true → a ≡ b }
    ensures same { (a : Allocation) → is_same a a ≡ true }
{}

/// An edit, accepted or not, refreshes its new fact where its id is new or its allocation changed. It also refreshes
/// each other imprecise fact whose region holds a cell that the edit reweighs and is spread otherwise. Their ids
/// ascend.
pub fn edits_refresh_what_covers_reweighed_cells()
    ensures members { (policy : Policy) (dims : List Dimension) (edit : Edit) (facts : List Fact) → AllPairs (λ f g. f.id < g.id) facts → (id : ℕ)
        → is_among (refreshed policy dims facts (after edit facts)) id ≡ option_map_or (is_refreshed policy dims edit facts) (find (λ f. f.id == id) (after edit facts)) false }
    ensures ascending { (policy : Policy) (dims : List Dimension) (edit : Edit) (facts : List Fact) → AllPairs (λ f g. f.id < g.id) facts
        → (least : ℕ) → All (λ f. least ≤ f.id) (after edit facts) → ascends_from (λ id. id) least (refreshed policy dims facts (after edit facts)) ≡ true }
{}

/// An edit, accepted or not, refreshes its new fact where its id is new or its allocation changed. It also refreshes
/// each other fact whose group was there and still is, and is spread otherwise: each of these is imprecise. Such groups
/// are found at any codes but which the groups stay.
pub fn edits_refresh_the_groups_that_are_respread()
    ensures edited { (policy : Policy) (dims : List Dimension) (edit : Edit) (facts : List Fact) → AllPairs (λ f g. f.id < g.id) facts
        → is_among (refreshed policy dims facts (after edit facts)) (edited_id edit) ≡ option_map_or (is_new_or_moved policy dims edit facts) (given edit) false }
    ensures others { (policy : Policy) (columns : ℕ) (dims : List Dimension) (edit : Edit) (facts : List Fact) (codes : List ℕ) → AllPairs (λ f g. f.id < g.id) facts → All IsTree dims
        → All (λ f. IsRegion dims f.region) facts → All (λ f. IsRegion dims f.region) (after edit facts) → HaveSameGroupsBut codes policy columns dims facts (after edit facts)
        → (id : ℕ) → (edited_id edit == id) ≡ false → is_among (refreshed policy dims facts (after edit facts)) id
        ≡ option_map_or (λ f. is_among (respread_codes policy columns dims edit facts codes) (code_of dims f.region)) (find (λ f. f.id == id) facts) false }
    ensures imprecise { (policy : Policy) (columns : ℕ) (dims : List Dimension) (edit : Edit) (facts : List Fact) (codes : List ℕ) → AllPairs (λ f g. f.id < g.id) facts → All IsTree dims
        → All (λ f. IsRegion dims f.region) facts → All (λ f. IsRegion dims f.region) (after edit facts) → HaveSameGroupsBut codes policy columns dims facts (after edit facts)
        → (id : ℕ) → (edited_id edit == id) ≡ false → is_among (refreshed policy dims facts (after edit facts)) id ≡ true → IfSome (find (λ f. f.id == id) facts) (λ f. is_precise dims f ≡ false) }
    ensures ids { (policy : Policy) (columns : ℕ) (dims : List Dimension) (edit : Edit) (facts : List Fact) (codes : List ℕ) → AllPairs (λ f g. f.id < g.id) facts → All IsTree dims
        → All (λ f. IsRegion dims f.region) facts → All (λ f. IsRegion dims f.region) (after edit facts) → HaveSameGroupsBut codes policy columns dims facts (after edit facts)
        → (id : ℕ) → is_among (refreshed policy dims facts (after edit facts)) id
        ≡ (if edited_id edit == id then option_map_or (is_new_or_moved policy dims edit facts) (given edit) false
        else is_among (imprecise_ids dims facts (respread_codes policy columns dims edit facts codes)) id) }
{}

/// Two lists of numbers that ascend and have the same members are one.
pub fn ascending_lists_are_told_by_their_members()
    ensures { (a b : ℕ) (xs ys : List ℕ) → ascends_from (λ x. x) a xs ≡ true → ascends_from (λ x. x) b ys ≡ true → ((n : ℕ) → is_among xs n ≡ is_among ys n) → xs ≡ ys }
{}

/// Groups and edits that were worked out by hand. Two facts that share a region are one group, with the rows of one of them. A
/// move touches two cells, in order of their codes, whichever the fact came from; a new value touches the fact's own, which is
/// reweighed where the values weigh; an imprecise fact touches none. A group stands for as many facts as it has, of which one has the
/// sums. The group that is respread by a move is that of the imprecise facts over the cell which the fact leaves.
pub fn worked_groups()
    ensures groups { groups_at by_count 1 small_space five_facts three_codes
        ≡ group_of (spread_over 3 ((0, 2) ∷ (2, 1) ∷ [])) 2 610 ∷ group_of (spread_over 1 ((0, 1) ∷ [])) 2 400 ∷ group_of (spread_over 1 ((2, 1) ∷ [])) 1 50 ∷ [] }
    ensures no_group { group_at by_count 1 small_space five_facts 5 ≡ None }
    ensures rows { group_rows (groups_at by_count 1 small_space five_facts three_codes) ≡ 7 }
    ensures all_rows { row_count (extended by_count small_space five_facts) ≡ 7 }
    ensures counted { count_in (0 ∷ []) (groups_at by_count 1 small_space five_facts three_codes) 3 ≡ 4 }
    ensures summed { sum_in (0 ∷ []) (groups_at by_count 1 small_space five_facts three_codes) 0 3 ≡ pos 1220 }
    ensures taken { taken move_third five_facts ≡ Some (valued_at 3 (3 ∷ 1 ∷ []) 50) }
    ensures taken_by_a_put { taken put_third five_facts ≡ Some (valued_at 3 (3 ∷ 1 ∷ []) 50) }
    ensures put_over { after put_third five_facts ≡ after move_third five_facts }
    ensures touched { touched_cells small_space move_third five_facts ≡ 1 ∷ 2 ∷ [] }
    ensures touched_by_a_new_fact { touched_cells small_space put_sixth five_facts ≡ 7 ∷ [] }
    ensures not_touched { touched_cells small_space withdraw_fourth five_facts ≡ [] }
    ensures changed { changed_cells uniform small_space move_third five_facts ≡ 1 ∷ 2 ∷ [] }
    ensures not_reweighed { reweighed_cells uniform small_space move_third five_facts ≡ [] }
    ensures touched_in_place { touched_cells small_space revalue_second five_facts ≡ 0 ∷ [] }
    ensures alike { changed_cells by_count small_space revalue_second five_facts ≡ [] }
    ensures reweighed_by_its_value { reweighed_cells (by_sum 1) small_space revalue_second five_facts ≡ 0 ∷ [] }
    ensures refreshed { refreshed by_count small_space five_facts (after move_third five_facts) ≡ 3 ∷ 4 ∷ 5 ∷ [] }
    ensures covering { map (covers_any small_space (2 ∷ [])) five_facts ≡ false ∷ false ∷ false ∷ true ∷ true ∷ [] }
    ensures as_facts { flat_map group_facts (groups_at by_count 1 small_space five_facts (7 ∷ [])) ≡ fact_over (spread_over 1 ((0, 1) ∷ [])) (pos 400 ∷ []) ∷ fact_over (spread_over 1 ((0, 1) ∷ [])) (pos 0 ∷ []) ∷ [] }
    ensures respread { respread_codes by_count 1 small_space move_third five_facts (4 ∷ 8 ∷ 10 ∷ []) ≡ 4 ∷ [] }
    ensures respread_ids { imprecise_ids small_space five_facts (4 ∷ 7 ∷ []) ≡ 4 ∷ 5 ∷ [] }
    ensures found { map (is_refreshed by_count small_space move_third five_facts) (after move_third five_facts) ≡ false ∷ false ∷ true ∷ true ∷ true ∷ [] }
{}
