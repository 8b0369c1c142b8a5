//! A law of accepted values, and examples that are computed from the definitions. The functions do nothing: each law is
//! the contract.
ghost use Rattle.std.specs.Prelude.{◌≡◌, ◌≤◌, List, [], ◌∷◌, All, true, codes, map, replicate, is_none, None, Some, Ok, Err, ℤ, nat_abs, negsuc, pos};
ghost use Rattle.std.specs.List.{list_all};
ghost use Rattle.cube_base.specs.declared.code.Code.TheVariants as code;
ghost use Rattle.cube_model.specs.declared.edit.Edit.TheVariants.{Change, Put, Withdraw};
ghost use Rattle.cube_model.specs.Allocation.{by_count};
ghost use Rattle.cube_model.specs.Limits.{MAX_VALUE};
ghost use Rattle.region_algebra.specs.Examples.{small_space};
ghost use Rattle.fact_records.specs.Accepted.{cols_refusal};
ghost use Rattle.fact_records.specs.Examples.{fact_at, four_facts, hundred_parts, number, number_and_parts, one_number, parts_and_number, second_weighs};
ghost use Rattle.fact_records.specs.Fields.{cols_given, fact_given, nodes_named};
ghost use Rattle.fact_records.specs.Judge.{judge};
ghost use Rattle.fact_records.specs.Shape.{IsShape, ShapeValue, adds_of, measure_named};
ghost use Rattle.fact_records.specs.Values.{values_for};

/// No value that a fact may have is above 10^12 in absolute value, of distributions neither. So the columns of all facts
/// add up within 64 bits.
pub fn accepted_values_are_small()
    ensures { (shape : ShapeValue) (values : List ℤ) → IsShape shape → cols_refusal shape values ≡ None → All (λ value. nat_abs value ≤ MAX_VALUE) values }
{}

/// Fields of a number and of a distribution. Where cells weigh by the sum of a number, it is not below 0.
pub fn worked_fields()
    ensures numbers { map (values_for one_number (number 1)) (codes "0" ∷ codes "600" ∷ codes "-7" ∷ codes "1000000000000" ∷ codes "-1000000000000" ∷ [])
        ≡ Some (pos 0 ∷ []) ∷ Some (pos 600 ∷ []) ∷ Some (negsuc 6 ∷ []) ∷ Some (pos 1000000000000 ∷ []) ∷ Some (negsuc 999999999999 ∷ []) ∷ [] }
    ensures no_numbers { list_all (λ field. is_none (values_for one_number (number 1) field)) (codes "1000000000001" ∷ codes "-1000000000001" ∷ codes "+5" ∷ codes "05" ∷ codes "-05"
        ∷ codes "-0" ∷ [] ∷ codes "-" ∷ codes "1.5" ∷ codes " 1" ∷ codes "--1" ∷ codes "99999999999999999999" ∷ []) ≡ true }
    ensures parts { map (values_for number_and_parts (hundred_parts 2)) (codes "80:20" ∷ codes "0:100" ∷ codes "100:0" ∷ codes "50:50" ∷ [])
        ≡ Some (pos 80 ∷ pos 20 ∷ []) ∷ Some (pos 0 ∷ pos 100 ∷ []) ∷ Some (pos 100 ∷ pos 0 ∷ []) ∷ Some (pos 50 ∷ pos 50 ∷ []) ∷ [] }
    ensures no_parts { list_all (λ field. is_none (values_for number_and_parts (hundred_parts 2) field)) (codes "80:21" ∷ codes "80:19" ∷ codes "100" ∷ codes "80:20:0" ∷ codes "80:"
        ∷ codes ":" ∷ codes "-1:101" ∷ codes "080:20" ∷ codes "101:0" ∷ [] ∷ []) ≡ true }
    ensures weighed { map (values_for second_weighs (number 2)) (codes "0" ∷ codes "7" ∷ codes "-7" ∷ []) ≡ Some (pos 0 ∷ []) ∷ Some (pos 7 ∷ []) ∷ None ∷ [] }
    ensures not_weighed { values_for second_weighs (number 1) (codes "-7") ≡ Some (negsuc 6 ∷ []) }
{}

/// What the fields of a fact say together. A wrong number comes before wrong parts, wherever they stand, and both come
/// after a wrong id and a wrong node.
pub fn worked_facts()
    ensures named { nodes_named small_space (codes "c" ∷ codes "b" ∷ []) ≡ Some (2 ∷ 1 ∷ []) }
    ensures exchanged { nodes_named small_space (codes "b" ∷ codes "g" ∷ []) ≡ None }
    ensures fact { fact_given small_space parts_and_number (codes "4" ∷ codes "c" ∷ codes "b" ∷ codes "80:20" ∷ codes "5" ∷ [])
        ≡ Ok (record { id = 4; region = 2 ∷ 1 ∷ []; cols = pos 80 ∷ pos 20 ∷ pos 5 ∷ [] }) }
    ensures largest { fact_given small_space one_number (codes "9223372036854775807" ∷ codes "c" ∷ codes "b" ∷ codes "5" ∷ []) ≡ Ok (fact_at 9223372036854775807 (2 ∷ 1 ∷ []) 5) }
    ensures id { map (λ id. fact_given small_space one_number (id ∷ codes "h" ∷ codes "b" ∷ codes "+5" ∷ [])) (codes "0" ∷ [] ∷ codes "01" ∷ codes "+1" ∷ codes "-1" ∷ codes "9223372036854775808" ∷ [])
        ≡ replicate 6 (Err code.Id) }
    ensures node { fact_given small_space one_number (codes "4" ∷ codes "h" ∷ codes "b" ∷ codes "+5" ∷ []) ≡ Err code.Node }
    ensures number_first { map (cols_given parts_and_number) ((codes "80:21" ∷ codes "+5" ∷ []) ∷ (codes "80:20" ∷ codes "+5" ∷ []) ∷ (codes "80:21" ∷ codes "5" ∷ []) ∷ [])
        ≡ Err code.Value ∷ Err code.Value ∷ Err code.Parts ∷ [] }
    ensures weighed { map (cols_given second_weighs) ((codes "-1" ∷ codes "0" ∷ []) ∷ (codes "0" ∷ codes "-1" ∷ []) ∷ []) ≡ Ok (negsuc 0 ∷ pos 0 ∷ []) ∷ Err code.Value ∷ [] }
{}

/// Values that a fact may have and may not have, and what it adds to the sum of its cell.
pub fn worked_columns()
    ensures accepted { list_all (λ values. is_none (cols_refusal number_and_parts values)) ((pos 100 ∷ pos 80 ∷ pos 20 ∷ []) ∷ (pos 1000000000000 ∷ pos 80 ∷ pos 20 ∷ [])
        ∷ (negsuc 999999999999 ∷ pos 0 ∷ pos 100 ∷ []) ∷ []) ≡ true }
    ensures values { map (cols_refusal number_and_parts) ((pos 1000000000001 ∷ pos 80 ∷ pos 20 ∷ []) ∷ (negsuc 1000000000000 ∷ pos 80 ∷ pos 20 ∷ []) ∷ (negsuc 9223372036854775807 ∷ pos 80 ∷ pos 20 ∷ [])
        ∷ (pos 5 ∷ pos 80 ∷ []) ∷ (pos 5 ∷ pos 80 ∷ pos 20 ∷ pos 0 ∷ []) ∷ [] ∷ (pos 1000000000001 ∷ pos 80 ∷ pos 21 ∷ []) ∷ []) ≡ replicate 7 (Some code.Value) }
    ensures parts { map (cols_refusal number_and_parts) ((pos 5 ∷ pos 101 ∷ negsuc 0 ∷ []) ∷ (pos 5 ∷ pos 80 ∷ pos 21 ∷ []) ∷ (pos 5 ∷ pos 80 ∷ pos 19 ∷ []) ∷ (pos 5 ∷ pos 9223372036854775807 ∷ pos 9223372036854775807 ∷ [])
        ∷ (pos 5 ∷ negsuc 9223372036854775807 ∷ negsuc 9223372036854775807 ∷ []) ∷ (pos 5 ∷ negsuc 9223372036854775807 ∷ pos 9223372036854775807 ∷ []) ∷ []) ≡ replicate 6 (Some code.Parts) }
    ensures weighed { map (cols_refusal second_weighs) ((negsuc 0 ∷ pos 0 ∷ []) ∷ (pos 0 ∷ negsuc 0 ∷ []) ∷ []) ≡ None ∷ Some code.Value ∷ [] }
    ensures sums { adds_of second_weighs (pos 3 ∷ pos 7 ∷ []) ≡ 7 }
    ensures no_sums { adds_of number_and_parts (pos 3 ∷ pos 80 ∷ pos 20 ∷ []) ≡ 0 }
    ensures found { map (measure_named number_and_parts.measures) (codes "n" ∷ codes "p" ∷ codes "N" ∷ [] ∷ []) ≡ Some 0 ∷ Some 1 ∷ None ∷ None ∷ [] }
{}

/// Edits that are accepted and that are not.
pub fn worked_judgements()
    ensures accepted { judge by_count one_number small_space (Put (fact_at 5 (0 ∷ 0 ∷ []) 7)) four_facts ≡ None }
    ensures moved { judge by_count one_number small_space (Change (fact_at 3 (2 ∷ 1 ∷ []) 50)) four_facts ≡ None }
    ensures withdrawn { judge by_count one_number small_space (Withdraw 3) four_facts ≡ None }
    ensures large { judge by_count one_number small_space (Put (fact_at 4 (0 ∷ 0 ∷ []) 1000000000001)) four_facts ≡ Some code.Value }
    ensures exists { judge by_count one_number small_space (Put (fact_at 4 (0 ∷ 0 ∷ []) 7)) four_facts ≡ Some code.Exists }
    ensures changed_missing { judge by_count one_number small_space (Change (fact_at 5 (0 ∷ 0 ∷ []) 7)) four_facts ≡ Some code.Missing }
    ensures missing { judge by_count one_number small_space (Withdraw 5) four_facts ≡ Some code.Missing }
{}
