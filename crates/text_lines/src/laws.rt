//! Laws of the definitions, and examples that are computed from them. The functions do nothing: each law is the contract.
ghost use Rattle.std.specs.Prelude.{◌≡◌, ◌↔◌, ℕ, ◌-◌, ◌<◌, ◌≤◌, ◌^◌, ◌++◌, List, [], ◌∷◌, true, false, None, Some, codes, length, replicate};
ghost use Rattle.std.specs.Fmt.{decimal};
ghost use Rattle.text_lines.specs.LineText.{IsAsItsFront, LINE_FRONT, is_clean, is_long, is_skipped, without_cr};
ghost use Rattle.text_lines.specs.Text.{fields_of, lines_of, number_in};

/// A number below 2^64 has one spelling: it is read from the digits that are printed for it, and from no others.
pub fn one_spelling()
    ensures { (least most n : ℕ) (bytes : List ℕ) → n < 2 ^ 64 → least ≤ n → n ≤ most →
        (number_in least most bytes ≡ Some n) ↔ (bytes ≡ decimal n) }
{}

/// The first 4,097 bytes of a line that has more tell whether it is skipped, and that it is long.
pub fn long_line_is_as_its_front()
    ensures { (line : List ℕ) → LINE_FRONT < length line → IsAsItsFront line }
{}

/// Lines and fields that were worked out by hand. LF is 10, CR 13, TAB 9, and `#` 35.
pub fn worked_lines()
    ensures no_line { lines_of [] ≡ [] }
    ensures ended_line { lines_of (codes "a" ++ 10 ∷ []) ≡ codes "a" ∷ [] }
    ensures open_line { lines_of (10 ∷ 10 ∷ codes "a") ≡ [] ∷ [] ∷ codes "a" ∷ [] }
    ensures one_cr { without_cr (codes "a" ++ 13 ∷ 13 ∷ []) ≡ codes "a" ++ 13 ∷ [] }
    ensures inner_cr { without_cr (13 ∷ codes "a") ≡ 13 ∷ codes "a" }
    ensures empty_skipped { is_skipped [] ≡ true }
    ensures only_cr_skipped { is_skipped (13 ∷ []) ≡ true }
    ensures comment_skipped { is_skipped (codes "#a") ≡ true }
    ensures space_not_skipped { is_skipped (codes " #a") ≡ false }
    ensures most_bytes { is_long (replicate 4096 97) ≡ false }
    ensures too_many_bytes { is_long (replicate 4097 97) ≡ true }
    ensures tab_clean { is_clean (9 ∷ 195 ∷ 169 ∷ []) ≡ true }
    ensures control_not_clean { is_clean (codes "a" ++ 31 ∷ []) ≡ false }
    ensures delete_not_clean { is_clean (codes "a" ++ 127 ∷ []) ≡ false }
    ensures half_a_letter_not_clean { is_clean (195 ∷ []) ≡ false }
    ensures one_field { fields_of [] ≡ [] ∷ [] }
    ensures empty_fields { fields_of (9 ∷ codes "a" ++ 9 ∷ []) ≡ [] ∷ codes "a" ∷ [] ∷ [] }
{}

/// Numbers that were worked out by hand.
pub fn worked_numbers()
    ensures nothing { number_in 0 9 (codes "0") ≡ Some 0 }
    ensures ten { number_in 0 10 (codes "10") ≡ Some 10 }
    ensures least { number_in 5 7 (codes "5") ≡ Some 5 }
    ensures most { number_in 5 7 (codes "7") ≡ Some 7 }
    ensures too_small { number_in 5 7 (codes "4") ≡ None }
    ensures too_large { number_in 5 7 (codes "8") ≡ None }
    ensures no_digit { number_in 0 9 [] ≡ None }
    ensures two_zeros { number_in 0 9 (codes "00") ≡ None }
    ensures leading_zero { number_in 0 9 (codes "07") ≡ None }
    ensures plus { number_in 0 9 (codes "+7") ≡ None }
    ensures minus { number_in 0 9 (codes "-7") ≡ None }
    ensures space_behind { number_in 0 9 (codes "7 ") ≡ None }
    ensures last { number_in 0 (2 ^ 64 - 1) (codes "18446744073709551615") ≡ Some (2 ^ 64 - 1) }
    ensures above_last { number_in 0 (2 ^ 64 - 1) (codes "18446744073709551616") ≡ None }
{}
