//! Examples that are computed from the definitions. The function does nothing: the law is its contract.
ghost use Rattle.std.specs.Prelude.{◌≡◌, ◌∷◌, [], None, Some, false, true};
ghost use Rattle.cube_model.specs.Allocation.{weigh_count, weigh_evenly, weigh_sum};
ghost use Rattle.cell_weight.specs.Stats.{has_facts, no_facts, stat_at};

/// What a cell weighs where three facts of 400 together lie. A cell whose facts sum to 0 has facts; one that has a place
/// and no statistics, or not even a place, has none.
pub fn worked_weights()
    ensures evenly { weigh_evenly (record { count = 3; sum = 400 }) ≡ 1 }
    ensures count { weigh_count (record { count = 3; sum = 400 }) ≡ 3 }
    ensures sum { weigh_sum (record { count = 3; sum = 400 }) ≡ 400 }
    ensures kept { stat_at ((4, Some (record { count = 1; sum = 0 })) ∷ (8, None) ∷ []) 4 ≡ record { count = 1; sum = 0 } }
    ensures empty { stat_at ((4, Some (record { count = 1; sum = 0 })) ∷ (8, None) ∷ []) 8 ≡ no_facts }
    ensures none { stat_at ((4, Some (record { count = 1; sum = 0 })) ∷ (8, None) ∷ []) 0 ≡ no_facts }
    ensures some { has_facts (record { count = 1; sum = 0 }) ≡ true }
    ensures nothing { has_facts no_facts ≡ false }
{}
