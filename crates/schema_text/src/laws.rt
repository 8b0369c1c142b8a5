//! Laws of schemas and their texts, and texts that were worked out by hand. The functions do nothing: each law is the
//! contract.
ghost use Rattle.std.specs.Prelude.{◌≡◌, ◌∷◌, ◌++◌, ◌<◌, [], ℕ, List, Ok, codes, length, take};
ghost use Rattle.cube_base.specs.declared.code.Code.TheVariants as code;
ghost use Rattle.text_lines.specs.LineText.{LINE_FRONT};
ghost use Rattle.schema_text.specs.declared.word.PolicyWord.TheVariants as policy_word;
ghost use Rattle.schema_text.specs.Examples.{IsRefused, SaysSchema, dimension, measured, node, number, number_measure, numbered_node, of_dimension, one_dim_view, one_node, parts_line, parts_measure, policy, three_nodes, version, view, viewed, weight, with_nodes};
ghost use Rattle.schema_text.specs.Schema.{IsSchema, SchemaValue};
ghost use Rattle.schema_text.specs.SchemaText.{Draft, read_from, schema_of, schema_text};

/// The text of a schema, with anything after it, is read as that schema, and takes its own length.
pub fn what_is_written_is_read()
    ensures { (schema : SchemaValue) (rest : List ℕ) → IsSchema schema →
        schema_of (schema_text schema ++ rest) ≡ Ok (record { schema = schema; size = length (schema_text schema) }) }
{}

/// Of a line of more than 4,097 bytes the first 4,097 mean what the line means.
pub fn long_line_means_its_front()
    ensures { (draft : Draft) (k : ℕ) (line : List ℕ) (lines : List (List ℕ)) → LINE_FRONT < length line →
        read_from draft k (line ∷ lines) ≡ read_from draft k (take LINE_FRONT line ∷ lines) }
{}

/// Distributions.
pub fn worked_distributions()
    ensures read { SaysSchema (measured (policy (codes "count")) (parts_line (codes "Q") (codes "100") (codes "g" ∷ codes "b" ∷ []) ∷ []))
        (of_dimension policy_word.Count (parts_measure (codes "Q") 100 (codes "g" ∷ codes "b" ∷ []) 1 ∷ []) one_node) }
    ensures one_outcome { IsRefused (measured (policy (codes "count")) (parts_line (codes "Q") (codes "9") (codes "g" ∷ []) ∷ [])) 3 code.Fields }
    ensures outcome_twice { IsRefused (measured (policy (codes "count")) (parts_line (codes "Q") (codes "0") (codes "g" ∷ codes "g" ∷ []) ∷ [])) 3 code.Name }
    ensures scale_0 { IsRefused (measured (policy (codes "count")) (parts_line (codes "Q") (codes "0") (codes "g" ∷ codes "b" ∷ []) ∷ [])) 3 code.Number }
    ensures scale_above { IsRefused (measured (policy (codes "count")) (parts_line (codes "Q") (codes "1000001") (codes "g" ∷ codes "b" ∷ []) ∷ [])) 3 code.Number }
    ensures eighth_column { IsRefused (measured (policy (codes "count")) (number (codes "A") ∷ number (codes "B") ∷ parts_line (codes "Q") (codes "1") (codes "a" ∷ codes "b" ∷ codes "c" ∷ codes "d" ∷ codes "e" ∷ codes "f" ∷ []) ∷ [])) 5 code.Limit }
{}

/// Policies by the sum of a measure.
pub fn worked_weights()
    ensures read { SaysSchema (measured (weight (codes "B")) (number (codes "A") ∷ number (codes "B") ∷ []))
        (of_dimension (policy_word.Weight 1) (number_measure (codes "A") 1 ∷ number_measure (codes "B") 2 ∷ []) one_node) }
    ensures no_name { IsRefused (measured (policy (codes "weight")) []) 2 code.Fields }
    ensures empty_name { IsRefused (measured (weight []) []) 2 code.Name }
    ensures a_name_more { IsRefused (measured (codes "policy" ∷ codes "count" ∷ codes "A" ∷ []) []) 2 code.Fields }
    ensures unknown { IsRefused (measured (policy (codes "em")) []) 2 code.Policy }
    ensures no_measure { IsRefused (measured (weight (codes "A")) []) 5 code.Policy }
    ensures no_number { IsRefused (measured (weight (codes "Q")) (parts_line (codes "Q") (codes "9") (codes "g" ∷ codes "b" ∷ []) ∷ [])) 6 code.Policy }
{}

/// Nodes with numbers of their own.
pub fn worked_numbers()
    ensures read { SaysSchema (with_nodes (numbered_node (codes "0") (codes "a") (codes "0") ∷ numbered_node (codes "1") (codes "b") (codes "2") ∷ numbered_node (codes "1") (codes "c") (codes "1") ∷ []))
        (of_dimension policy_word.Count [] three_nodes) }
    ensures version_3 { IsRefused (version (codes "3") ∷ []) 1 code.Number }
    ensures no_number { IsRefused (with_nodes (node (codes "0") (codes "a") ∷ [])) 4 code.Fields }
    ensures a_number_more { IsRefused (version (codes "1") ∷ policy (codes "count") ∷ dimension ∷ numbered_node (codes "0") (codes "a") (codes "0") ∷ []) 4 code.Fields }
    ensures number_twice { IsRefused (with_nodes (numbered_node (codes "0") (codes "a") (codes "0") ∷ numbered_node (codes "2") (codes "b") (codes "0") ∷ [])) 5 code.Number }
    ensures name_first { IsRefused (with_nodes (numbered_node (codes "0") (codes "a") (codes "0") ∷ numbered_node (codes "1") (codes "a") (codes "0") ∷ [])) 5 code.Name }
    ensures number_of_the_root { IsRefused (with_nodes (numbered_node (codes "0") (codes "a") (codes "1") ∷ numbered_node (codes "1") (codes "b") (codes "0") ∷ [])) 6 code.Number }
    ensures number_not_below { IsRefused (with_nodes (numbered_node (codes "0") (codes "a") (codes "0") ∷ numbered_node (codes "1") (codes "b") (codes "2") ∷ [])) 6 code.Number }
{}

/// Views.
pub fn worked_views()
    ensures read { SaysSchema (viewed (view (codes "v") (codes "0" ∷ []) ∷ view (codes "w") (codes "8" ∷ []) ∷ []))
        (record (of_dimension policy_word.Count [] one_node) { views = one_dim_view (codes "v") 0 ∷ one_dim_view (codes "w") 8 ∷ [] }) }
    ensures no_depth { IsRefused (viewed (view (codes "v") [] ∷ [])) 5 code.Fields }
    ensures a_depth_more { IsRefused (viewed (view (codes "v") (codes "0" ∷ codes "0" ∷ []) ∷ [])) 5 code.Fields }
    ensures empty_name { IsRefused (viewed (view [] (codes "9" ∷ []) ∷ [])) 5 code.Name }
    ensures name_twice { IsRefused (viewed (view (codes "v") (codes "0" ∷ []) ∷ view (codes "v") (codes "9" ∷ []) ∷ [])) 6 code.Name }
    ensures depth_above { IsRefused (viewed (view (codes "v") (codes "9" ∷ []) ∷ [])) 5 code.Number }
    ensures depth_misspelled { IsRefused (viewed (view (codes "v") (codes "00" ∷ []) ∷ [])) 5 code.Number }
    ensures fifth_view { IsRefused (viewed (view (codes "v") (codes "0" ∷ []) ∷ view (codes "w") (codes "0" ∷ []) ∷ view (codes "x") (codes "0" ∷ []) ∷ view (codes "y") (codes "0" ∷ []) ∷ view (codes "z") (codes "0" ∷ []) ∷ [])) 9 code.Limit }
    ensures number_before_limit { IsRefused (viewed (view (codes "v") (codes "0" ∷ []) ∷ view (codes "w") (codes "0" ∷ []) ∷ view (codes "x") (codes "0" ∷ []) ∷ view (codes "y") (codes "0" ∷ []) ∷ view (codes "z") (codes "9" ∷ []) ∷ [])) 9 code.Number }
    ensures before_a_node { IsRefused (version (codes "1") ∷ policy (codes "count") ∷ view (codes "v") [] ∷ []) 3 code.Order }
    ensures node_behind { IsRefused (viewed (view (codes "v") (codes "0" ∷ []) ∷ node (codes "1") (codes "b") ∷ [])) 6 code.Order }
    ensures dimension_behind { IsRefused (viewed (view (codes "v") (codes "0" ∷ []) ∷ dimension ∷ [])) 6 code.Order }
    ensures number_of_the_root { IsRefused (with_nodes (numbered_node (codes "0") (codes "a") (codes "1") ∷ view (codes "v") (codes "0" ∷ []) ∷ [])) 5 code.Number }
    ensures name_before_numbers { IsRefused (with_nodes (numbered_node (codes "0") (codes "a") (codes "1") ∷ view [] (codes "0" ∷ []) ∷ [])) 5 code.Name }
{}
