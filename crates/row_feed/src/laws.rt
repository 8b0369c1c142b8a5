//! A feed that was written by hand, and lines of feeds. The functions do nothing: the laws are their contracts.
ghost use Rattle.std.specs.Prelude.{◌≡◌, ℕ, ◌<◌, ◌^◌, List, [], ◌∷◌, ◌++◌, All, Ok, Err, codes, map, replicate, true};
ghost use Rattle.std.specs.Fmt.{decimal};
ghost use Rattle.cube_base.specs.Name.{is_name};
ghost use Rattle.cube_base.specs.declared.code.Code.TheVariants as code;
ghost use Rattle.cube_model.specs.declared.edit.Edit.{Edit};
ghost use Rattle.cube_model.specs.declared.edit.Edit.TheVariants.{Change, Put, Withdraw};
ghost use Rattle.cube_model.specs.declared.edit.Fact.{Fact};
ghost use Rattle.cube_model.specs.declared.tree.Grow.{Grow};
ghost use Rattle.fact_keeper.specs.declared.content.Batch.{Batch};
ghost use Rattle.text_lines.specs.Text.{lines_of};
ghost use Rattle.fact_records.specs.Valid.{IsEditOf, IsFactOf};
ghost use Rattle.schema_text.specs.Growth.{IsGrowOf, dims_with};
ghost use Rattle.schema_text.specs.Schema.{IsSchema, SchemaValue, over_dims, shape_of};
ghost use Rattle.script_text.specs.declared.line.Line.{Line};
ghost use Rattle.script_text.specs.declared.line.Line.TheVariants as line;
ghost use Rattle.row_feed.specs.declared.feed_line.FeedLine.TheVariants as feed_line;
ghost use Rattle.row_feed.specs.Examples.{more_repairs, no_rows, repair, repairs, somewhere_in_texas, tabbed};
ghost use Rattle.row_feed.specs.FeedLine.{feed_line_of};
ghost use Rattle.row_feed.specs.FeedText.{base_lines, batch_lines, fact_line, feed_bytes, fields_line, said_fields};
ghost use Rattle.row_feed.specs.PlainText.{ArePrinted, IsPlainText, IsWritten};

/// A feed that was written by hand: what it begins with, and batches of edits and of a growth.
pub fn worked_feed()
    ensures base { base_lines repairs (repair 1 2 100 ∷ repair 2 2 300 ∷ repair 3 3 50 ∷ []) ≡ map tabbed (codes "feed|1"
        ∷ codes "cube|1" ∷ codes "policy|count" ∷ codes "number|Repair" ∷ codes "dimension|Place" ∷ codes "node|0|All" ∷ codes "node|1|TX" ∷ codes "node|2|Austin" ∷ codes "node|2|Dallas"
        ∷ codes "dimension|Auto" ∷ codes "node|0|All" ∷ codes "node|1|Camry" ∷ codes "end"
        ∷ codes "fact|1|Austin|Camry|100" ∷ codes "fact|2|Austin|Camry|300" ∷ codes "fact|3|Dallas|Camry|50" ∷ codes "based" ∷ []) }
    ensures insert { batch_lines repairs 1 (line.Edit (Put (repair 4 1 600))) somewhere_in_texas ≡ map tabbed (codes "batch|1|insert|4|TX|Camry|600"
        ∷ codes "rows|4|3|2" ∷ codes "row|Austin|Camry|2" ∷ codes "row|Dallas|Camry|1" ∷ codes "done" ∷ []) }
    ensures change { batch_lines repairs 2 (line.Edit (Change (repair 2 2 300))) no_rows ≡ map tabbed (codes "batch|2|change|2|Austin|Camry|300" ∷ codes "done" ∷ []) }
    ensures withdraw { batch_lines repairs 3 (line.Edit (Withdraw 4)) no_rows ≡ map tabbed (codes "batch|3|withdraw|4" ∷ codes "done" ∷ []) }
    ensures grow { batch_lines more_repairs 4 (line.Grow (record { dim = 0; parent = 1; name = codes "Waco" })) no_rows ≡ map tabbed (codes "batch|4|grow|Place|TX|Waco" ∷ codes "done" ∷ []) }
    ensures bytes { feed_bytes (codes "a" ∷ [] ∷ codes "bc" ∷ []) ≡ codes "a" ++ 10 ∷ 10 ∷ codes "bc" ++ 10 ∷ [] }
{}

/// What lines of feeds say.
pub fn worked_lines()
    ensures fact { feed_line_of repairs (tabbed (codes "fact|2|Austin|Camry|300")) ≡ Ok (feed_line.Fact (repair 2 2 300)) }
    ensures based { feed_line_of repairs (codes "based") ≡ Ok feed_line.Based }
    ensures insert { feed_line_of repairs (tabbed (codes "batch|1|insert|4|TX|Camry|600")) ≡ Ok (feed_line.Batch 1 (Ok (line.Edit (Put (repair 4 1 600))))) }
    ensures change { feed_line_of repairs (tabbed (codes "batch|2|change|2|Austin|Camry|300")) ≡ Ok (feed_line.Batch 2 (Ok (line.Edit (Change (repair 2 2 300))))) }
    ensures withdraw { feed_line_of repairs (tabbed (codes "batch|3|withdraw|4")) ≡ Ok (feed_line.Batch 3 (Ok (line.Edit (Withdraw 4)))) }
    ensures grow { feed_line_of repairs (tabbed (codes "batch|4|grow|Place|TX|Waco")) ≡ Ok (feed_line.Batch 4 (Ok (line.Grow (record { dim = 0; parent = 1; name = codes "Waco" })))) }
    ensures any_number { map (λ text. feed_line_of repairs (tabbed text)) (codes "batch|0|withdraw|4" ∷ codes "batch|18446744073709551615|withdraw|4" ∷ [])
        ≡ Ok (feed_line.Batch 0 (Ok (line.Edit (Withdraw 4)))) ∷ Ok (feed_line.Batch 18446744073709551615 (Ok (line.Edit (Withdraw 4)))) ∷ [] }
    ensures no_change { map (λ text. feed_line_of repairs (tabbed text)) (codes "batch|1|" ∷ codes "batch|1|#x" ∷ codes "batch|1|count|TX|All" ∷ codes "batch|1|Insert|4|TX|Camry|600" ∷ [])
        ≡ replicate 4 (Ok (feed_line.Batch 1 (Err code.Command))) }
    ensures refused_change { map (λ text. feed_line_of repairs (tabbed text)) (codes "batch|1|insert" ∷ codes "batch|1|withdraw|0" ∷ codes "batch|1|insert|4|Reno|Camry|6" ∷ codes "batch|1|grow|Place|TX|Austin" ∷ [])
        ≡ Ok (feed_line.Batch 1 (Err code.Fields)) ∷ Ok (feed_line.Batch 1 (Err code.Id)) ∷ Ok (feed_line.Batch 1 (Err code.Node)) ∷ Ok (feed_line.Batch 1 (Err code.Name)) ∷ [] }
    ensures fields { map (λ text. feed_line_of repairs (tabbed text)) (codes "fact|2|Austin|Camry" ∷ codes "fact" ∷ codes "based|" ∷ codes "batch" ∷ codes "batch|1" ∷ []) ≡ replicate 5 (Err code.Fields) }
    ensures number { map (λ text. feed_line_of repairs (tabbed text)) (codes "batch|01|insert" ∷ codes "batch||insert" ∷ codes "batch|18446744073709551616|insert" ∷ []) ≡ replicate 3 (Err code.Number) }
    ensures fact_codes { map (λ text. feed_line_of repairs (tabbed text)) (codes "fact|0|Reno|Camry|x" ∷ codes "fact|2|Reno|Camry|x" ∷ codes "fact|2|Austin|Camry|x" ∷ [])
        ≡ Err code.Id ∷ Err code.Node ∷ Err code.Value ∷ [] }
    ensures text { map (feed_line_of repairs) ((codes "based" ++ 13 ∷ []) ∷ (13 ∷ []) ∷ (195 ∷ []) ∷ []) ≡ replicate 3 (Err code.Text) }
    ensures other { map (feed_line_of repairs) ([] ∷ codes "#" ∷ codes "done" ∷ codes "Based" ∷ codes "basedx" ∷ codes "fac" ∷ []) ≡ replicate 6 (Ok feed_line.Other) }
    ensures long { feed_line_of repairs (replicate 4097 97) ≡ Err code.Long }
{}

/// A feed is cut into the lines that it was written of: none of them has an LF, and no reader refuses one for its bytes.
pub fn lines_are_cut_again()
    ensures cut { (lines : List (List ℕ)) (rest : List ℕ) → All IsPlainText lines → lines_of (feed_bytes lines ++ rest) ≡ lines ++ lines_of rest }
    ensures base { (schema : SchemaValue) (facts : List Fact) → IsSchema schema → All (IsFactOf (shape_of schema) schema.dims) facts → All IsPlainText (base_lines schema facts) }
    ensures batch { (schema : SchemaValue) (number : ℕ) (said : Line) (batch : Batch) → IsSchema schema → number < 2 ^ 64 → IsWritten schema said → All (ArePrinted schema.dims) batch.rows
        → All IsPlainText (batch_lines schema number said batch) }
{}

/// A fact is read from its line, and an edit or a growth from that of its batch. A growth is written over the schema after it,
/// and read over the one before.
pub fn lines_are_read_again()
    ensures fact { (schema : SchemaValue) (fact : Fact) → IsSchema schema → IsFactOf (shape_of schema) schema.dims fact → feed_line_of schema (fact_line schema fact) ≡ Ok (feed_line.Fact fact) }
    ensures edit { (schema : SchemaValue) (number : ℕ) (change : Edit) → IsSchema schema → number < 2 ^ 64 → IsEditOf (shape_of schema) schema.dims change
        → feed_line_of schema (fields_line (codes "batch") (decimal number ∷ said_fields schema (line.Edit change))) ≡ Ok (feed_line.Batch number (Ok (line.Edit change))) }
    ensures growth { (schema : SchemaValue) (number : ℕ) (leaf : Grow) → IsSchema schema → number < 2 ^ 64 → IsGrowOf schema.dims leaf → is_name leaf.name ≡ true
        → feed_line_of schema (fields_line (codes "batch") (decimal number ∷ said_fields (over_dims schema (dims_with leaf schema.dims)) (line.Grow leaf))) ≡ Ok (feed_line.Batch number (Ok (line.Grow leaf))) }
{}
