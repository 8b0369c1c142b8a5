//! That fields give back the fact, and fields that were written by hand. The functions do nothing: the laws are their
//! contracts.
ghost use Rattle.std.specs.Prelude.{◌≡◌, [], ◌∷◌, Ok, codes, negsuc, pos};
ghost use Rattle.cube_model.specs.declared.edit.Fact.{Fact};
ghost use Rattle.fact_records.specs.Fields.{fact_given};
ghost use Rattle.fact_records.specs.Valid.{IsFactOf};
ghost use Rattle.schema_text.specs.Schema.{IsSchema, SchemaValue, shape_of};
ghost use Rattle.script_text.specs.Examples.{graded};
ghost use Rattle.fact_fields.specs.FactRow.{record_of};

/// The fields of a fact give that fact.
pub fn fields_read_back()
    ensures { (schema : SchemaValue) (fact : Fact) → IsSchema schema → IsFactOf (shape_of schema) schema.dims fact →
        fact_given schema.dims (shape_of schema) (record_of schema fact) ≡ Ok fact }
{}

/// The fields of facts with a distribution and a number.
pub fn worked_fields()
    ensures on_leaves { record_of graded (record { id = 7; region = 2 ∷ 1 ∷ []; cols = pos 80 ∷ pos 20 ∷ pos 5 ∷ [] }) ≡ codes "7" ∷ codes "c" ∷ codes "b" ∷ codes "80:20" ∷ codes "5" ∷ [] }
    ensures on_roots { record_of graded (record { id = 12; region = 0 ∷ 0 ∷ []; cols = pos 100 ∷ pos 0 ∷ negsuc 6 ∷ [] }) ≡ codes "12" ∷ codes "a" ∷ codes "a" ∷ codes "100:0" ∷ codes "-7" ∷ [] }
{}
