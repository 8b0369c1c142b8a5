//! How parts of a text make the whole, and a text that was written by hand. The functions do nothing: the laws are their
//! contracts.
ghost use Rattle.std.specs.Prelude.{◌≡◌, ℕ, ◌+◌, ◌≤◌, List, [], ◌∷◌, ◌++◌, codes, length};
ghost use Rattle.cube_model.specs.Allocation.{ExtendedFact};
ghost use Rattle.schema_text.specs.Schema.{SchemaValue};
ghost use Rattle.csv_facts.specs.Examples.{family_and_pair, in_one_cell, in_quotes, in_two_cells, lf_lines};
ghost use Rattle.csv_facts.specs.ExtendedRow.{extended_text, part_text, rows_header, text_before};
ghost use Rattle.csv_facts.specs.RecordList.{records_text};

/// The text of rows is its parts, one after the other. It begins with the header, which is all of it where there are no
/// facts. Then come the rows of one fact after the other: after the first so many, the part from there on. Where a
/// fact's rows are through, the text is that of this fact too.
pub fn parts_make_the_text()
    ensures header { (schema : SchemaValue) → records_text (rows_header schema ∷ []) ≡ extended_text schema [] }
    ensures fact { (schema : SchemaValue) (facts : List ExtendedFact) (fact : ExtendedFact) → extended_text schema facts ≡ text_before schema facts fact 0 }
    ensures part { (schema : SchemaValue) (facts : List ExtendedFact) (fact : ExtendedFact) (from most : ℕ)
        → text_before schema facts fact from ++ part_text schema fact from most ≡ text_before schema facts fact (from + most) }
    ensures through { (schema : SchemaValue) (facts : List ExtendedFact) (fact : ExtendedFact) (count : ℕ) → length fact.allocation.rows ≤ count
        → text_before schema facts fact count ≡ extended_text schema (facts ++ fact ∷ []) }
{}

/// The text of two facts that was written by hand: one is in two cells, with two thirds and one third, the other in one. A
/// field with a comma stands between quotes. The text of no facts is the header alone.
pub fn worked_text()
    ensures rows { extended_text family_and_pair (in_two_cells ∷ in_one_cell ∷ []) ≡ lf_lines ((codes "id,family," ++ in_quotes (codes "a,b") ++ codes ",weight,of,p,n")
        ∷ codes "4,c,b,2,3,80:20,5" ∷ codes "4,d,b,1,3,80:20,5" ∷ codes "12,g,c,1,1,100:0,-7" ∷ []) }
    ensures none { extended_text family_and_pair [] ≡ lf_lines ((codes "id,family," ++ in_quotes (codes "a,b") ++ codes ",weight,of,p,n") ∷ []) }
{}
