//! Laws of the definitions, and examples that are computed from them. The functions do nothing: each law is the contract.
ghost use Rattle.std.specs.Prelude.{◌≡◌, ℕ, ◌<◌, ◌≤◌, ◌++◌, List, [], ◌∷◌, codes, length, map, replicate};
ghost use Rattle.std.specs.List.{concat};
ghost use Rattle.text_lines.specs.Text.{lines_of};
ghost use Rattle.text_lines.specs.Pieces.{ended_lines, front, last_line, lf_count, line_end, lines_ahead, lines_given, pieces_of, rest_of, whole_lines};

/// However a text is cut into pieces, the lines that are handed out, one after the other, are those of the whole text, of
/// each its first 4,097 bytes.
pub fn lines_in_any_cutting()
    ensures { (pieces : List (List ℕ)) → lines_given [] pieces ≡ map front (lines_of (concat pieces)) }
{}

/// What is held of a text, and what comes after it, have the lines of both together, of each its first 4,097 bytes. A
/// piece that is taken changes nothing of the lines ahead.
pub fn lines_held_and_ahead()
    ensures text { (text more : List ℕ) → lines_ahead (pieces_of text) more ≡ map front (lines_of (text ++ more)) }
    ensures piece { (held : List (List ℕ)) (piece more : List ℕ) → length held ≡ 1 →
        lines_ahead held (piece ++ more) ≡ lines_ahead (pieces_of (rest_of held ++ piece)) more }
{}

/// The pieces of a text are the lines that end in it and a rest. What follows changes none of these lines, and the rest
/// goes on with it. At the end of the input the rest is a line, unless it is empty.
pub fn lines_that_end()
    ensures whole { (text : List ℕ) → whole_lines (pieces_of text) ≡ map front (ended_lines text) }
    ensures count { (text : List ℕ) → length (ended_lines text) ≡ lf_count text }
    ensures piece { (text piece : List ℕ) → pieces_of (text ++ piece) ≡ whole_lines (pieces_of text) ++ pieces_of (rest_of (pieces_of text) ++ piece) }
    ensures more { (text more : List ℕ) → lines_ahead (pieces_of text) more ≡ map front (lines_of (text ++ more)) }
    ensures last { (text : List ℕ) → map front (lines_of text) ≡ whole_lines (pieces_of text) ++ last_line (rest_of (pieces_of text)) }
{}

/// Where fewer than n lines end in the front of a text, its n-th line ends after it, or has no LF.
pub fn lines_end_behind()
    ensures { (text more : List ℕ) (n : ℕ) → lf_count text < n → length text ≤ line_end (text ++ more) n }
{}

/// Cuttings that were worked out by hand. LF is 10 and CR 13.
pub fn worked_cuttings()
    ensures nothing { pieces_of [] ≡ [] ∷ [] }
    ensures ended { ended_lines (codes "ab" ++ 10 ∷ 10 ∷ codes "c") ≡ codes "ab" ∷ [] ∷ [] }
    ensures first_end { line_end (codes "ab" ++ 10 ∷ codes "c") 1 ≡ 3 }
    ensures last_end { line_end (codes "ab" ++ 10 ∷ codes "c") 2 ≡ 4 }
    ensures no_piece { lines_given [] [] ≡ [] }
    ensures rest { pieces_of (codes "ab" ++ 10 ∷ codes "c") ≡ codes "ab" ∷ codes "c" ∷ [] }
    ensures empty_rest { pieces_of (codes "ab" ++ 10 ∷ []) ≡ codes "ab" ∷ [] ∷ [] }
    ensures empty_line { pieces_of (10 ∷ 10 ∷ []) ≡ [] ∷ [] ∷ [] ∷ [] }
    ensures within_a_line { lines_given [] (codes "a" ∷ (codes "b" ++ 10 ∷ codes "c") ∷ codes "d" ∷ []) ≡ codes "ab" ∷ codes "cd" ∷ [] }
    ensures behind_lf { lines_given [] ((codes "a" ++ 10 ∷ []) ∷ (codes "b" ++ 10 ∷ []) ∷ []) ≡ codes "a" ∷ codes "b" ∷ [] }
    ensures before_lf { lines_given [] (codes "a" ∷ (10 ∷ codes "b") ∷ []) ≡ codes "a" ∷ codes "b" ∷ [] }
    ensures within_cr_lf { lines_given [] ((codes "a" ++ 13 ∷ []) ∷ (10 ∷ codes "b") ∷ []) ≡ (codes "a" ++ 13 ∷ []) ∷ codes "b" ∷ [] }
    ensures empty_pieces { lines_given [] ([] ∷ codes "a" ∷ [] ∷ (10 ∷ []) ∷ [] ∷ []) ≡ codes "a" ∷ [] }
    ensures long_line { lines_given [] (replicate 4096 97 ∷ (codes "bc" ++ 10 ∷ codes "d") ∷ []) ≡ (replicate 4096 97 ++ codes "b") ∷ codes "d" ∷ [] }
    ensures long_rest { lines_given [] (replicate 4097 97 ∷ codes "bc" ∷ codes "d" ∷ []) ≡ replicate 4097 97 ∷ [] }
{}
