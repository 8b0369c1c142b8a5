//! Examples that are computed from the definitions. The functions do nothing: the laws are their contracts.
ghost use Rattle.std.specs.Prelude.{◌≡◌, [], pos, negsuc, None, Some};
ghost use Rattle.exact_fraction.specs.Examples.{below_a_unit, far_apart, far_apart_losses, far_apart_values, four_facts_terms, large_column, large_count, large_divisor, large_sum, less_than_nothing, nothing_and_less, two_outcomes, two_thirds};
ghost use Rattle.exact_fraction.specs.One.{one_of};
ghost use Rattle.exact_fraction.specs.Ratio.{ratio_of};
ghost use Rattle.exact_fraction.specs.declared.quotients.Quotient.TheVariants.{Is, Undefined};

/// Sums and quotients that were worked out by hand.
pub fn worked_examples()
    ensures count { one_of 0 two_thirds ≡ record { lo = pos 2666666666; hi = pos 2666666667; exact = Some (pos 8, 3) } }
    ensures sum { one_of 1 two_thirds ≡ record { lo = pos 800000000000; hi = pos 800000000000; exact = Some (pos 800, 1) } }
    ensures nothing { one_of 1 [] ≡ record { lo = pos 0; hi = pos 0; exact = Some (pos 0, 1) } }
    ensures negative { one_of 1 less_than_nothing ≡ record { lo = negsuc 333333333; hi = negsuc 333333332; exact = Some (negsuc 0, 3) } }
    ensures average { ratio_of 1 1 four_facts_terms ≡ Is (Some (pos 262500000000)) (Some (pos 262500000000)) (Some (pos 525, 2)) }
    ensures negative_average { ratio_of 1 1 nothing_and_less ≡ Is (Some (negsuc 249999999)) (Some (negsuc 249999999)) (Some (negsuc 0, 4)) }
    ensures first_outcome { ratio_of 1 100 two_outcomes ≡ Is (Some (pos 700000000)) (Some (pos 700000000)) (Some (pos 7, 10)) }
    ensures second_outcome { ratio_of 2 100 two_outcomes ≡ Is (Some (pos 300000000)) (Some (pos 300000000)) (Some (pos 3, 10)) }
    ensures undefined { ratio_of 0 1 [] ≡ Undefined }
{}

/// Sums that cannot be given as one fraction, worked out by hand: by the least common multiple, and by the sum over it.
pub fn worked_wide_sums()
    ensures multiple { one_of 0 far_apart ≡ record { lo = pos 0; hi = pos 2; exact = None } }
    ensures sum { one_of 0 large_sum ≡ record { lo = pos 1188623171; hi = pos 1188623173; exact = None } }
{}

/// Quotients that cannot be given as one fraction, worked out by hand. Each has another number that passes the limit:
/// the least common multiple, the sum of the column and that of the count over it, and the quotient's denominator. A
/// count whose lower bound is 0 gives no bounds.
pub fn worked_wide_quotients()
    ensures multiple { ratio_of 1 1 far_apart_values ≡ Is (Some (pos 3999999991)) (Some (pos 4000000001)) None }
    ensures negative { ratio_of 1 7 far_apart_losses ≡ Is (Some (negsuc 571428571)) (Some (negsuc 571428569)) None }
    ensures sum { ratio_of 1 1 large_column ≡ Is (Some (pos 951780472142857142)) (Some (pos 1110410551000000000)) None }
    ensures count { ratio_of 1 1 large_count ≡ Is (Some (pos 499999999)) (Some (pos 500000002)) None }
    ensures divisor { ratio_of 1 7 large_divisor ≡ Is (Some (pos 117190965)) (Some (pos 117190966)) None }
    ensures unbounded { ratio_of 1 1 below_a_unit ≡ Is None None None }
{}
