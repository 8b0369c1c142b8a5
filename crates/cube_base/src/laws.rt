//! Examples that are computed from the definitions. The function does nothing: the examples are its contract.
ghost use Rattle.std.specs.Prelude.{◌≡◌, [], ◌∷◌, true, false, codes, replicate};
ghost use Rattle.cube_base.specs.Name.{is_name};

/// Bytes that are a name, and bytes that are none.
pub fn worked_names()
    ensures one_byte { is_name (codes "a") ≡ true }
    ensures no_byte { is_name [] ≡ false }
    ensures most_bytes { is_name (replicate 128 97) ≡ true }
    ensures too_many_bytes { is_name (replicate 129 97) ≡ false }
    ensures space { is_name (32 ∷ []) ≡ true }
    ensures below_space { is_name (31 ∷ []) ≡ false }
    ensures tilde { is_name (126 ∷ []) ≡ true }
    ensures delete { is_name (127 ∷ []) ≡ false }
    ensures letter_of_two_bytes { is_name (195 ∷ 169 ∷ []) ≡ true }
    ensures half_a_letter { is_name (195 ∷ []) ≡ false }
{}
