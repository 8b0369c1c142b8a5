//! Laws of the definitions, and examples that are computed from them. The functions do nothing: each law is the contract.
ghost use Rattle.std.specs.Prelude.{◌≡◌, ℕ, ◌<◌, List, [], ◌∷◌, ◌++◌, None, Some, Ok, Err, codes, length, map, ℤ, negsuc, pos, replicate, take};
ghost use Rattle.cube_base.specs.declared.code.Code.TheVariants as code;
ghost use Rattle.cube_model.specs.declared.edit.Edit.TheVariants as edit;
ghost use Rattle.text_lines.specs.LineText.{LINE_FRONT};
ghost use Rattle.region_algebra.specs.Examples.{small_space};
ghost use Rattle.fact_records.specs.Examples.{fact_at};
ghost use Rattle.schema_text.specs.Schema.{SchemaValue};
ghost use Rattle.exact_fraction.specs.declared.quotients.Quotient.TheVariants.{Is, Undefined};
ghost use Rattle.exact_fraction.specs.declared.sums.Value.{Value};
ghost use Rattle.script_text.specs.declared.line.Line.TheVariants as line;
ghost use Rattle.script_text.specs.declared.line.Question.TheVariants as question;
ghost use Rattle.script_text.specs.declared.word.IdWord.TheVariants.{Component, Rows};
ghost use Rattle.script_text.specs.declared.word.MeasureTableWord.TheVariants.{Avgs, Pools, Sums};
ghost use Rattle.script_text.specs.declared.word.MeasureWord.TheVariants.{Avg, Greatest, Least, Pool, Range, Sum};
ghost use Rattle.script_text.specs.declared.word.RegionWord.TheVariants.{Count, RangeCount, Terms, Worlds};
ghost use Rattle.script_text.specs.declared.word.RoundsWord.TheVariants.{Iterate};
ghost use Rattle.script_text.specs.declared.word.TableWord.TheVariants.{Counts};
ghost use Rattle.script_text.specs.declared.word.ViewWord.TheVariants.{View};
ghost use Rattle.script_text.specs.Decimals.{bounds_fields, pool_fields, quotient_fields, quotient_of, units_in, units_text};
ghost use Rattle.script_text.specs.Examples.{counted, graded, line_with, weighed};
ghost use Rattle.script_text.specs.Reply.{numbers_fields, picks_fields, rows_fields, table_fields, terms_fields, view_fields};
ghost use Rattle.script_text.specs.ScriptLine.{line_of};

/// A line of more than 4,097 bytes says what its first 4,097 bytes say.
pub fn long_line_says_what_its_front_says()
    ensures { (schema : SchemaValue) (line : List ℕ) → LINE_FRONT < length line → line_of schema line ≡ line_of schema (take LINE_FRONT line) }
{}

/// A printed bound gives back its number of units. So what is known of a bound is known of its text: that of the lower bound
/// is not above the value, and that of the upper bound not below it.
pub fn printed_bounds_read_back()
    ensures { (units : ℤ) → units_in (units_text units) ≡ Some units }
{}

/// A number is printed as the quotient that it is.
pub fn values_print_as_quotients()
    ensures { (value : Value) → quotient_fields (quotient_of value) ≡ bounds_fields value }
{}

/// Lines that are accepted. CR is 13.
pub fn worked_lines()
    ensures insert { line_of counted (line_with (codes "insert") (codes "4" ∷ codes "b" ∷ codes "b" ∷ codes "600" ∷ [])) ≡ Ok (line.Edit (edit.Put (fact_at 4 (1 ∷ 1 ∷ []) 600))) }
    ensures change { line_of counted (line_with (codes "change") (codes "3" ∷ codes "d" ∷ codes "b" ∷ codes "50" ∷ [])) ≡ Ok (line.Edit (edit.Change (fact_at 3 (3 ∷ 1 ∷ []) 50))) }
    ensures withdraw { line_of counted (line_with (codes "withdraw") (codes "1" ∷ [])) ≡ Ok (line.Edit (edit.Withdraw 1)) }
    ensures terms { map (line_of counted) (line_with (codes "terms") (codes "c" ∷ codes "a" ∷ []) ∷ (line_with (codes "terms") (codes "c" ∷ codes "a" ∷ []) ++ 13 ∷ []) ∷ [])
        ≡ replicate 2 (Ok (line.Ask (question.OfRegion Terms (2 ∷ 0 ∷ [])))) }
    ensures rows { line_of counted (line_with (codes "rows") (codes "4" ∷ [])) ≡ Ok (line.Ask (question.OfId Rows 4)) }
    ensures worlds { line_of graded (line_with (codes "worlds") (codes "b" ∷ codes "a" ∷ [])) ≡ Ok (line.Ask (question.OfRegion Worlds (1 ∷ 0 ∷ []))) }
    ensures count { line_of graded (line_with (codes "count") (codes "b" ∷ codes "a" ∷ [])) ≡ Ok (line.Ask (question.OfRegion Count (1 ∷ 0 ∷ []))) }
    ensures sum { line_of graded (line_with (codes "sum") (codes "n" ∷ codes "b" ∷ codes "a" ∷ [])) ≡ Ok (line.Ask (question.OfMeasure Sum 1 (1 ∷ 0 ∷ []))) }
    ensures average { line_of graded (line_with (codes "avg") (codes "n" ∷ codes "c" ∷ codes "b" ∷ [])) ≡ Ok (line.Ask (question.OfMeasure Avg 1 (2 ∷ 1 ∷ []))) }
    ensures pool { line_of graded (line_with (codes "pool") (codes "p" ∷ codes "a" ∷ codes "b" ∷ [])) ≡ Ok (line.Ask (question.OfMeasure Pool 0 (0 ∷ 1 ∷ []))) }
    ensures growth { map (line_of counted) (line_with (codes "grow") (codes "f" ∷ codes "e" ∷ codes "z" ∷ []) ∷ line_with (codes "grow") (codes "p" ∷ codes "a" ∷ replicate 128 122 ∷ []) ∷ [])
        ≡ Ok (line.Grow (record { dim = 0; parent = 4; name = codes "z" })) ∷ Ok (line.Grow (record { dim = 1; parent = 0; name = replicate 128 122 })) ∷ [] }
    ensures view { map (line_of counted) (line_with (codes "view") (codes "v" ∷ []) ∷ line_with (codes "view") (codes "w" ∷ []) ∷ []) ≡ map (λ view. Ok (line.Ask (question.OfView View view))) (0 ∷ 1 ∷ []) }
    ensures component { line_of counted (line_with (codes "component") (codes "4" ∷ [])) ≡ Ok (line.Ask (question.OfId Component 4)) }
    ensures ranges { map (line_of graded) (line_with (codes "range") (codes "n" ∷ codes "b" ∷ codes "a" ∷ []) ∷ line_with (codes "rangecount") (codes "b" ∷ codes "a" ∷ [])
        ∷ line_with (codes "least") (codes "n" ∷ codes "b" ∷ codes "a" ∷ []) ∷ line_with (codes "greatest") (codes "n" ∷ codes "b" ∷ codes "a" ∷ []) ∷ [])
        ≡ Ok (line.Ask (question.OfMeasure Range 1 (1 ∷ 0 ∷ []))) ∷ Ok (line.Ask (question.OfRegion RangeCount (1 ∷ 0 ∷ []))) ∷ Ok (line.Ask (question.OfMeasure Least 1 (1 ∷ 0 ∷ [])))
        ∷ Ok (line.Ask (question.OfMeasure Greatest 1 (1 ∷ 0 ∷ []))) ∷ [] }
    ensures rounds { map (line_of counted) (line_with (codes "iterate") (codes "1" ∷ codes "b" ∷ codes "a" ∷ [])
        ∷ line_with (codes "iterate") (codes "32" ∷ codes "b" ∷ codes "a" ∷ []) ∷ []) ≡ map (λ rounds. Ok (line.Ask (question.OfRounds Iterate rounds (1 ∷ 0 ∷ [])))) (1 ∷ 32 ∷ []) }
    ensures table { map (line_of counted) (line_with (codes "counts") (codes "0" ∷ codes "1" ∷ codes "b" ∷ codes "a" ∷ [])
        ∷ line_with (codes "counts") (codes "8" ∷ codes "2" ∷ codes "b" ∷ codes "a" ∷ []) ∷ []) ≡ map (λ depths. Ok (line.Ask (question.OfTable Counts depths (1 ∷ 0 ∷ [])))) ((0 ∷ 1 ∷ []) ∷ (8 ∷ 2 ∷ []) ∷ []) }
    ensures measure_tables { map (line_of graded) (line_with (codes "sums") (codes "n" ∷ codes "1" ∷ codes "0" ∷ codes "c" ∷ codes "b" ∷ [])
        ∷ line_with (codes "avgs") (codes "n" ∷ codes "1" ∷ codes "0" ∷ codes "c" ∷ codes "b" ∷ []) ∷ line_with (codes "pools") (codes "p" ∷ codes "1" ∷ codes "0" ∷ codes "c" ∷ codes "b" ∷ []) ∷ [])
        ≡ Ok (line.Ask (question.OfMeasureTable Sums 1 (1 ∷ 0 ∷ []) (2 ∷ 1 ∷ []))) ∷ Ok (line.Ask (question.OfMeasureTable Avgs 1 (1 ∷ 0 ∷ []) (2 ∷ 1 ∷ []))) ∷ Ok (line.Ask (question.OfMeasureTable Pools 0 (1 ∷ 0 ∷ []) (2 ∷ 1 ∷ []))) ∷ [] }
    ensures nothing { map (line_of counted) ([] ∷ (13 ∷ []) ∷ codes "#x" ∷ (35 ∷ replicate 5000 255) ∷ []) ≡ replicate 4 (Ok line.Nothing) }
    ensures negative { line_of weighed (line_with (codes "insert") (codes "4" ∷ codes "b" ∷ codes "b" ∷ codes "-5" ∷ codes "5" ∷ []))
        ≡ Ok (line.Edit (edit.Put (record { id = 4; region = 1 ∷ 1 ∷ []; cols = negsuc 4 ∷ pos 5 ∷ [] }))) }
{}

/// Lines that are refused, and for what: the first of their faults decides.
pub fn worked_refusals()
    ensures long { map (line_of counted) (line_with (codes "terms") (replicate 4091 97 ∷ []) ∷ line_with (codes "Insert") (codes "0" ∷ replicate 5000 255 ∷ []) ∷ []) ≡ replicate 2 (Err code.Long) }
    ensures not_long { line_of counted (line_with (codes "terms") (replicate 4090 97 ∷ [])) ≡ Err code.Fields }
    ensures text { map (line_of counted) ((255 ∷ []) ∷ line_with (codes "rows" ++ 13 ∷ []) (codes "1" ∷ []) ∷ line_with (codes "Insert") (codes "1" ∷ (1 ∷ []) ∷ []) ∷ line_with (codes "rows") ((195 ∷ []) ∷ [])
        ∷ (line_with (codes "rows") (codes "1" ∷ []) ++ 13 ∷ 13 ∷ []) ∷ []) ≡ replicate 5 (Err code.Text) }
    ensures command { map (line_of counted) ((9 ∷ []) ∷ codes "inserts" ∷ codes "Withdraw" ∷ line_with (codes "term") (codes "x" ∷ []) ∷ line_with (codes " rows") (codes "0" ∷ codes "x" ∷ []) ∷ []) ≡ replicate 5 (Err code.Command) }
    ensures fields { map (line_of counted) (codes "insert" ∷ line_with (codes "change") (codes "0" ∷ codes "x" ∷ codes "b" ∷ []) ∷ line_with (codes "withdraw") (codes "0" ∷ [] ∷ []) ∷ line_with (codes "terms") (codes "x" ∷ [])
        ∷ line_with (codes "rows") (codes "0" ∷ codes "0" ∷ []) ∷ []) ≡ replicate 5 (Err code.Fields) }
    ensures id { map (line_of counted) (line_with (codes "insert") (codes "0" ∷ codes "x" ∷ codes "b" ∷ codes "+5" ∷ []) ∷ line_with (codes "change") (codes "01" ∷ codes "b" ∷ codes "b" ∷ codes "5" ∷ [])
        ∷ line_with (codes "withdraw") (codes "9223372036854775808" ∷ []) ∷ line_with (codes "rows") ([] ∷ []) ∷ line_with (codes "component") (codes "0" ∷ []) ∷ []) ≡ replicate 5 (Err code.Id) }
    ensures node { map (line_of counted) (line_with (codes "insert") (codes "1" ∷ codes "x" ∷ codes "b" ∷ codes "+5" ∷ []) ∷ line_with (codes "change") (codes "1" ∷ codes "b" ∷ codes "g" ∷ codes "5" ∷ [])
        ∷ line_with (codes "terms") (codes "b" ∷ [] ∷ []) ∷ line_with (codes "worlds") (codes "B" ∷ codes "b" ∷ []) ∷ []) ≡ replicate 4 (Err code.Node) }
    ensures node_first { map (line_of graded) (line_with (codes "sum") (codes "x" ∷ codes "x" ∷ codes "b" ∷ []) ∷ line_with (codes "avg") (codes "p" ∷ codes "b" ∷ codes "x" ∷ [])
        ∷ line_with (codes "pool") (codes "n" ∷ codes "n" ∷ codes "b" ∷ []) ∷ line_with (codes "count") (codes "x" ∷ codes "x" ∷ []) ∷ []) ≡ replicate 4 (Err code.Node) }
    ensures measure { map (line_of graded) (line_with (codes "sum") (codes "x" ∷ codes "b" ∷ codes "b" ∷ []) ∷ line_with (codes "sum") (codes "p" ∷ codes "b" ∷ codes "b" ∷ [])
        ∷ line_with (codes "avg") (codes "p" ∷ codes "b" ∷ codes "b" ∷ []) ∷ line_with (codes "avg") (codes "b" ∷ codes "b" ∷ codes "b" ∷ []) ∷ line_with (codes "pool") (codes "n" ∷ codes "b" ∷ codes "b" ∷ [])
        ∷ line_with (codes "pool") ([] ∷ codes "b" ∷ codes "b" ∷ []) ∷ []) ≡ replicate 6 (Err code.Measure) }
    ensures fields_first { map (line_of graded) (line_with (codes "count") (codes "x" ∷ []) ∷ line_with (codes "count") (codes "n" ∷ codes "b" ∷ codes "b" ∷ []) ∷ line_with (codes "sum") (codes "b" ∷ codes "b" ∷ [])
        ∷ line_with (codes "avg") (codes "x" ∷ codes "x" ∷ codes "b" ∷ codes "b" ∷ []) ∷ line_with (codes "pool") (codes "n" ∷ codes "x" ∷ []) ∷ codes "sum" ∷ []) ≡ replicate 6 (Err code.Fields) }
    ensures value { map (line_of graded) (line_with (codes "insert") (codes "1" ∷ codes "b" ∷ codes "b" ∷ codes "80:21" ∷ codes "+5" ∷ [])
        ∷ line_with (codes "change") (codes "1" ∷ codes "b" ∷ codes "b" ∷ codes "80:20" ∷ codes "05" ∷ []) ∷ []) ≡ replicate 2 (Err code.Value) }
    ensures parts { map (line_of graded) (line_with (codes "insert") (codes "1" ∷ codes "b" ∷ codes "b" ∷ codes "80:21" ∷ codes "5" ∷ [])
        ∷ line_with (codes "change") (codes "1" ∷ codes "b" ∷ codes "b" ∷ codes "100" ∷ codes "5" ∷ []) ∷ []) ≡ replicate 2 (Err code.Parts) }
    ensures negative { line_of weighed (line_with (codes "insert") (codes "4" ∷ codes "b" ∷ codes "b" ∷ codes "5" ∷ codes "-5" ∷ [])) ≡ Err code.Value }
    ensures view_name { map (line_of counted) (line_with (codes "view") (codes "none" ∷ []) ∷ line_with (codes "view") ([] ∷ []) ∷ []) ≡ replicate 2 (Err code.Name) }
    ensures growth_fields { map (line_of counted) (line_with (codes "grow") (codes "f" ∷ codes "e" ∷ []) ∷ line_with (codes "grow") (codes "x" ∷ codes "e" ∷ codes "z" ∷ codes "z" ∷ []) ∷ codes "grow" ∷ []) ≡ replicate 3 (Err code.Fields) }
    ensures growth_node { map (line_of counted) (line_with (codes "grow") (codes "x" ∷ codes "a" ∷ codes "z" ∷ []) ∷ line_with (codes "grow") ([] ∷ codes "a" ∷ codes "z" ∷ []) ∷ line_with (codes "grow") (codes "f" ∷ codes "x" ∷ codes "z" ∷ [])
        ∷ line_with (codes "grow") (codes "p" ∷ codes "d" ∷ codes "z" ∷ []) ∷ []) ≡ replicate 4 (Err code.Node) }
    ensures growth_name { map (line_of counted) (line_with (codes "grow") (codes "f" ∷ codes "e" ∷ codes "c" ∷ []) ∷ line_with (codes "grow") (codes "f" ∷ codes "e" ∷ codes "e" ∷ []) ∷ line_with (codes "grow") (codes "f" ∷ codes "e" ∷ [] ∷ [])
        ∷ line_with (codes "grow") (codes "f" ∷ codes "e" ∷ replicate 129 122 ∷ []) ∷ []) ≡ replicate 4 (Err code.Name) }
    ensures growth_node_first { map (line_of counted) (line_with (codes "grow") (codes "x" ∷ codes "e" ∷ [] ∷ []) ∷ line_with (codes "grow") (codes "f" ∷ codes "x" ∷ codes "c" ∷ []) ∷ []) ≡ replicate 2 (Err code.Node) }
    ensures number { map (line_of counted) (line_with (codes "iterate") (codes "0" ∷ codes "b" ∷ codes "b" ∷ []) ∷ line_with (codes "iterate") (codes "33" ∷ codes "x" ∷ codes "b" ∷ [])
        ∷ line_with (codes "iterate") (codes "01" ∷ codes "b" ∷ codes "b" ∷ []) ∷ line_with (codes "counts") (codes "9" ∷ codes "x" ∷ codes "x" ∷ codes "b" ∷ []) ∷ [])
        ≡ replicate 4 (Err code.Number) }
    ensures depth { map (line_of graded) (line_with (codes "sums") (codes "x" ∷ codes "0" ∷ codes "9" ∷ codes "x" ∷ codes "b" ∷ [])
        ∷ line_with (codes "avgs") (codes "n" ∷ [] ∷ codes "0" ∷ codes "b" ∷ codes "b" ∷ [])
        ∷ line_with (codes "pools") (codes "p" ∷ codes "0" ∷ codes "00" ∷ codes "b" ∷ codes "b" ∷ []) ∷ []) ≡ replicate 3 (Err code.Number) }
    ensures asked_node { map (line_of graded) (line_with (codes "iterate") (codes "1" ∷ codes "b" ∷ codes "x" ∷ []) ∷ line_with (codes "counts") (codes "0" ∷ codes "0" ∷ codes "x" ∷ codes "b" ∷ [])
        ∷ line_with (codes "sums") (codes "x" ∷ codes "0" ∷ codes "0" ∷ codes "b" ∷ codes "x" ∷ []) ∷ line_with (codes "least") (codes "x" ∷ codes "x" ∷ codes "b" ∷ [])
        ∷ line_with (codes "rangecount") (codes "x" ∷ codes "b" ∷ []) ∷ [])
        ≡ replicate 5 (Err code.Node) }
    ensures asked_measure { map (line_of graded) (line_with (codes "sums") (codes "x" ∷ codes "0" ∷ codes "0" ∷ codes "b" ∷ codes "b" ∷ [])
        ∷ line_with (codes "avgs") (codes "p" ∷ codes "0" ∷ codes "0" ∷ codes "b" ∷ codes "b" ∷ []) ∷ line_with (codes "pools") (codes "n" ∷ codes "0" ∷ codes "0" ∷ codes "b" ∷ codes "b" ∷ [])
        ∷ line_with (codes "range") (codes "p" ∷ codes "b" ∷ codes "b" ∷ []) ∷ line_with (codes "least") (codes "p" ∷ codes "b" ∷ codes "b" ∷ [])
        ∷ line_with (codes "greatest") (codes "x" ∷ codes "b" ∷ codes "b" ∷ []) ∷ [])
        ≡ replicate 6 (Err code.Measure) }
    ensures asked_fields { map (line_of graded) (line_with (codes "counts") (codes "9" ∷ codes "9" ∷ codes "b" ∷ []) ∷ line_with (codes "counts") (codes "0" ∷ codes "0" ∷ codes "0" ∷ codes "b" ∷ codes "b" ∷ [])
        ∷ line_with (codes "sums") (codes "n" ∷ codes "0" ∷ codes "0" ∷ codes "b" ∷ []) ∷ line_with (codes "pools") (codes "0" ∷ codes "0" ∷ codes "b" ∷ codes "b" ∷ [])
        ∷ line_with (codes "iterate") (codes "b" ∷ codes "b" ∷ []) ∷ line_with (codes "range") (codes "b" ∷ codes "b" ∷ []) ∷ line_with (codes "rangecount") (codes "n" ∷ codes "b" ∷ codes "b" ∷ [])
        ∷ line_with (codes "component") (codes "1" ∷ codes "1" ∷ []) ∷ [])
        ≡ replicate 8 (Err code.Fields) }
    ensures one_view { map (line_of counted) (codes "view" ∷ line_with (codes "view") (codes "v" ∷ codes "v" ∷ []) ∷ []) ≡ replicate 2 (Err code.Fields) }
{}

/// The fields of replies: terms, numbers, quotients, rows, views, whole numbers, picks and tables.
pub fn worked_replies()
    ensures no_terms { terms_fields [] ≡ codes "0" ∷ [] }
    ensures terms { terms_fields (record { den = 1; count = 2; sums = pos 400 ∷ [] } ∷ record { den = 3; count = 2; sums = negsuc 1199 ∷ [] } ∷ [])
        ≡ codes "2" ∷ codes "1" ∷ codes "2" ∷ codes "400" ∷ codes "3" ∷ codes "2" ∷ codes "-1200" ∷ [] }
    ensures fraction { bounds_fields (record { lo = pos 2666666666; hi = pos 2666666667; exact = Some (pos 8, 3) }) ≡ codes "2.666666666" ∷ codes "2.666666667" ∷ codes "8/3" ∷ [] }
    ensures whole { bounds_fields (record { lo = pos 800000000000; hi = pos 800000000000; exact = Some (pos 800, 1) }) ≡ codes "800.000000000" ∷ codes "800.000000000" ∷ codes "800" ∷ [] }
    ensures zero { bounds_fields (record { lo = pos 0; hi = pos 0; exact = Some (pos 0, 1) }) ≡ codes "0.000000000" ∷ codes "0.000000000" ∷ codes "0" ∷ [] }
    ensures below_zero { bounds_fields (record { lo = negsuc 333333333; hi = negsuc 333333332; exact = Some (negsuc 0, 3) }) ≡ codes "-0.333333334" ∷ codes "-0.333333333" ∷ codes "-1/3" ∷ [] }
    ensures whole_below_zero { bounds_fields (record { lo = negsuc 1999999999; hi = negsuc 1999999999; exact = Some (negsuc 1, 1) }) ≡ codes "-2.000000000" ∷ codes "-2.000000000" ∷ codes "-2" ∷ [] }
    ensures wide { bounds_fields (record { lo = negsuc 0; hi = pos 1000000001; exact = None }) ≡ codes "-0.000000001" ∷ codes "1.000000001" ∷ codes "wide" ∷ [] }
    ensures average { quotient_fields (Is (Some (pos 262500000000)) (Some (pos 262500000000)) (Some (pos 525, 2))) ≡ codes "262.500000000" ∷ codes "262.500000000" ∷ codes "525/2" ∷ [] }
    ensures no_bounds { quotient_fields (Is None None None) ≡ codes "-" ∷ codes "-" ∷ codes "wide" ∷ [] }
    ensures undefined { quotient_fields Undefined ≡ [] }
    ensures pool { pool_fields (Is (Some (pos 700000000)) (Some (pos 700000000)) (Some (pos 7, 10)) ∷ Is (Some (pos 300000000)) (Some (pos 300000000)) (Some (pos 3, 10)) ∷ [])
        ≡ codes "0.700000000" ∷ codes "0.700000000" ∷ codes "7/10" ∷ codes "0.300000000" ∷ codes "0.300000000" ∷ codes "3/10" ∷ [] }
    ensures no_entries { view_fields small_space [] ≡ codes "0" ∷ [] }
    ensures view { view_fields small_space ((2 ∷ 0 ∷ [], record { columns = 2; terms = record { den = 1; count = 2; sums = pos 400 ∷ [] } ∷ [] }) ∷ []) ≡ codes "1" ∷ codes "c" ∷ codes "a" ∷ codes "1" ∷ codes "1" ∷ codes "2" ∷ codes "400" ∷ [] }
    ensures numbers { numbers_fields (pos 2 ∷ pos 3 ∷ pos 8 ∷ negsuc 2399 ∷ []) ≡ codes "2" ∷ codes "3" ∷ codes "8" ∷ codes "-2400" ∷ [] }
    ensures no_picks { picks_fields small_space (pos 0) [] ≡ codes "0" ∷ codes "0" ∷ [] }
    ensures picks { picks_fields small_space (negsuc 9) ((4, 0) ∷ (7, 2) ∷ []) ≡ codes "-10" ∷ codes "2" ∷ codes "4" ∷ codes "c" ∷ codes "b" ∷ codes "7" ∷ codes "d" ∷ codes "b" ∷ [] }
    ensures no_regions { table_fields small_space [] ≡ codes "0" ∷ [] }
    ensures table { table_fields small_space ((2 ∷ 0 ∷ [], Is (Some (pos 262500000000)) (Some (pos 262500000000)) (Some (pos 525, 2)) ∷ []) ∷ []) ≡ codes "1" ∷ codes "c" ∷ codes "a" ∷ codes "262.500000000" ∷ codes "262.500000000" ∷ codes "525/2" ∷ [] }
    ensures rows { rows_fields small_space 3 ((0, 2) ∷ (2, 1) ∷ []) ≡ codes "3" ∷ codes "2" ∷ codes "c" ∷ codes "b" ∷ codes "2" ∷ codes "d" ∷ codes "b" ∷ codes "1" ∷ [] }
{}
