//! Examples that are computed from the definitions. The function does nothing: the laws are its contract.
ghost use Rattle.std.specs.Prelude.{◌≡◌, [], ◌∷◌, Some, pos};
ghost use Rattle.exact_fraction.specs.Examples.{two_outcomes};
ghost use Rattle.exact_fraction.specs.declared.quotients.Quotient.TheVariants.{Is};
ghost use Rattle.fact_records.specs.Outcomes.{AllAddUp};
ghost use Rattle.linear_pool.specs.Examples.{one_outcome, three_parts, two_measures, two_parts};
ghost use Rattle.linear_pool.specs.Pool.{pool_of};

/// Distributions that were pooled by hand: of one measure, of one that gives an outcome nothing, and of two measures, whose
/// columns follow one another and each add up to 10 times the count.
pub fn worked_pools()
    ensures shares { pool_of (Some (two_parts 100 1)) two_outcomes
        ≡ Is (Some (pos 700000000)) (Some (pos 700000000)) (Some (pos 7, 10)) ∷ Is (Some (pos 300000000)) (Some (pos 300000000)) (Some (pos 3, 10)) ∷ [] }
    ensures nothing { pool_of (Some (two_parts 100 1)) one_outcome
        ≡ Is (Some (pos 1000000000)) (Some (pos 1000000000)) (Some (pos 1, 1)) ∷ Is (Some (pos 0)) (Some (pos 0)) (Some (pos 0, 1)) ∷ [] }
    ensures first { pool_of (Some (two_parts 10 1)) two_measures
        ≡ Is (Some (pos 880000000)) (Some (pos 880000000)) (Some (pos 22, 25)) ∷ Is (Some (pos 120000000)) (Some (pos 120000000)) (Some (pos 3, 25)) ∷ [] }
    ensures second { pool_of (Some (three_parts 3)) two_measures
        ≡ Is (Some (pos 820000000)) (Some (pos 820000000)) (Some (pos 41, 50)) ∷ Is (Some (pos 40000000)) (Some (pos 40000000)) (Some (pos 1, 25))
        ∷ Is (Some (pos 140000000)) (Some (pos 140000000)) (Some (pos 7, 50)) ∷ [] }
    ensures totals { AllAddUp (two_parts 10 1 ∷ three_parts 3 ∷ []) two_measures }
{}
