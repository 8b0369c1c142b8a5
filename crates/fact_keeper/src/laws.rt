//! Examples that are computed from the definitions. The functions do nothing: the laws are their contracts.
ghost use Rattle.std.specs.Prelude.{◌≡◌, [], ◌∷◌, None, Some};
ghost use Rattle.fact_keeper.specs.Batch.{apply_batch, empty_content, fact_id, updated};
ghost use Rattle.fact_keeper.specs.Examples.{drops, fact, puts, small_content, three_facts, whole_cell};

/// Entries put into three facts and dropped from them, also where an id is dropped and put, is put twice, stands twice, or
/// stands in no order.
pub fn worked_entries()
    ensures between { updated fact_id [] (fact 2 5 ∷ []) (fact 1 10 ∷ fact 3 30 ∷ []) ≡ fact 1 10 ∷ fact 2 5 ∷ fact 3 30 ∷ [] }
    ensures first { updated fact_id [] (fact 0 5 ∷ []) (fact 1 10 ∷ []) ≡ fact 0 5 ∷ fact 1 10 ∷ [] }
    ensures last { updated fact_id [] (fact 9 5 ∷ []) three_facts ≡ fact 1 10 ∷ fact 2 20 ∷ fact 3 30 ∷ fact 9 5 ∷ [] }
    ensures alone { updated fact_id [] (fact 2 5 ∷ []) [] ≡ fact 2 5 ∷ [] }
    ensures replaced { updated fact_id [] (fact 2 5 ∷ []) three_facts ≡ fact 1 10 ∷ fact 2 5 ∷ fact 3 30 ∷ [] }
    ensures dropped { updated fact_id (3 ∷ 1 ∷ 7 ∷ []) [] three_facts ≡ fact 2 20 ∷ [] }
    ensures dropped_first { updated fact_id (2 ∷ []) (fact 2 5 ∷ []) three_facts ≡ fact 1 10 ∷ fact 2 5 ∷ fact 3 30 ∷ [] }
    ensures later_stays { updated fact_id [] (fact 2 5 ∷ fact 2 6 ∷ []) three_facts ≡ fact 1 10 ∷ fact 2 6 ∷ fact 3 30 ∷ [] }
    ensures in_turn { updated fact_id [] (fact 9 5 ∷ fact 8 6 ∷ []) [] ≡ fact 8 6 ∷ fact 9 5 ∷ [] }
    ensures no_order { updated fact_id [] (fact 2 5 ∷ []) (fact 3 30 ∷ fact 1 10 ∷ fact 4 40 ∷ []) ≡ fact 2 5 ∷ fact 3 30 ∷ fact 1 10 ∷ fact 4 40 ∷ [] }
    ensures all_of_the_id { updated fact_id [] (fact 2 5 ∷ []) (fact 2 20 ∷ fact 1 10 ∷ fact 2 21 ∷ []) ≡ fact 1 10 ∷ fact 2 5 ∷ [] }
{}

/// Batches that set the schema, put a fact and rows, and drop an id, which has a fact and rows.
pub fn worked_batches()
    ensures schema { apply_batch (puts (Some (98 ∷ [])) [] []) small_content
        ≡ record { schema = 98 ∷ []; facts = three_facts; rows = whole_cell 1 1 ∷ whole_cell 3 1 ∷ [] } }
    ensures first_schema { apply_batch (puts (Some (98 ∷ [])) [] []) empty_content ≡ record { schema = 98 ∷ []; facts = []; rows = [] } }
    ensures nothing { apply_batch (puts None [] []) small_content ≡ small_content }
    ensures put { apply_batch (puts None (fact 4 40 ∷ []) (whole_cell 2 7 ∷ [])) small_content
        ≡ record { schema = 97 ∷ []; facts = fact 1 10 ∷ fact 2 20 ∷ fact 3 30 ∷ fact 4 40 ∷ []; rows = whole_cell 1 1 ∷ whole_cell 2 7 ∷ whole_cell 3 1 ∷ [] } }
    ensures dropped { apply_batch (drops 1) small_content
        ≡ record { schema = 97 ∷ []; facts = fact 2 20 ∷ fact 3 30 ∷ []; rows = whole_cell 3 1 ∷ [] } }
{}
