//! Laws of what a store holds after edits, growths, imports and scripts. The functions do nothing: each law is the contract.
ghost use Rattle.std.specs.Prelude.{◌≡◌, ◌≤◌, [], ℕ, All, List, IfSome, IsOkAnd, IsSome, None, Ok, Some, true};
ghost use Rattle.cube_base.specs.Name.{is_name};
ghost use Rattle.cube_cli.specs.End.{Says, SaysOf};
ghost use Rattle.cube_cli.specs.Files.{IsAccepted, facts_with_file, import_batch};
ghost use Rattle.cube_cli.specs.SchemaAlone.{schema_alone};
ghost use Rattle.cube_cli.specs.Seen.{Holds};
ghost use Rattle.cube_cli.specs.Store.{Finds, IsSoundContent, IsSoundOver, schema_batch, state_over};
ghost use Rattle.cube_cli.specs.declared.command.Command.TheVariants as command;
ghost use Rattle.cube_cli.specs.declared.command.StoreCommand.TheVariants as store_command;
ghost use Rattle.cube_cli.specs.declared.end.End.{End};
ghost use Rattle.cube_cli.specs.declared.end.End.TheVariants as ends;
ghost use Rattle.cube_core.specs.Growth.{growth_difference, judge_growth};
ghost use Rattle.cube_model.specs.Allocation.{Policy, extended, row_count};
ghost use Rattle.cube_model.specs.Facts.{after};
ghost use Rattle.cube_model.specs.Limits.{MAX_ROWS};
ghost use Rattle.cube_model.specs.Tree.{Dimension};
ghost use Rattle.cube_model.specs.declared.edit.Edit.{Edit};
ghost use Rattle.cube_model.specs.declared.edit.Fact.{Fact};
ghost use Rattle.cube_model.specs.declared.tree.Grow.{Grow};
ghost use Rattle.edit_plan.specs.Plan.{difference};
ghost use Rattle.edit_plan.specs.Whole.{difference_with};
ghost use Rattle.fact_keeper.specs.Batch.{apply_batch, empty_content};
ghost use Rattle.fact_keeper.specs.declared.content.Stored.{Stored};
ghost use Rattle.fact_records.specs.Judge.{judge};
ghost use Rattle.fact_records.specs.New.{put_all};
ghost use Rattle.fact_records.specs.Shape.{ShapeValue};
ghost use Rattle.fact_records.specs.Valid.{IsEditOf, IsPlaced};
ghost use Rattle.fact_records.specs.RefusedRecord.{refused_among};
ghost use Rattle.schema_text.specs.Growth.{IsGrowOf, dims_with};
ghost use Rattle.schema_text.specs.Schema.{IsSchema, SchemaValue, over_dims, policy_of, shape_of};
ghost use Rattle.schema_text.specs.SchemaText.{schema_text};
ghost use Rattle.script_run.specs.Seen.{SeenAll};
ghost use Rattle.store_audit.specs.Sound.{IsSound, facts_told};
ghost use Rattle.store_audit.specs.declared.finding.Finding.{Finding};
ghost use Rattle.store_law.specs.Holds.{BeginsSound, GoesOnOver, HoldsState, IsRebuilt, StaysSound, content_after, state_reached};

/// A sound content with the batch of an accepted edit is sound, and it tells the facts after the edit. The schema's text stays.
pub fn edits_keep_stores_sound()
    ensures holds { (policy : Policy) (shape : ShapeValue) (dims : List Dimension) (content : Stored) (edit : Edit) → IsSound policy shape dims content
        → IsEditOf shape dims edit → judge policy shape dims edit (facts_told content) ≡ None
        → HoldsState policy shape dims (after edit (facts_told content)) (apply_batch (difference policy dims edit (facts_told content)) content) }
    ensures schema { (policy : Policy) (dims : List Dimension) (content : Stored) (edit : Edit)
        → (apply_batch (difference policy dims edit (facts_told content)) content).schema ≡ content.schema }
{}

/// With the batch of an accepted growth it is sound over the dimensions after that, and it tells the facts that it told. Its
/// text is the one of the schema over these dimensions. They make a schema, and its text is read as this schema alone.
pub fn growths_keep_stores_sound()
    ensures holds { (policy : Policy) (schema : SchemaValue) (content : Stored) (grow : Grow) → IsSchema schema
        → IsSound policy (shape_of schema) schema.dims content → IsGrowOf schema.dims grow → is_name grow.name ≡ true
        → judge_growth policy schema.dims (facts_told content) grow ≡ None
        → HoldsState policy (shape_of schema) (dims_with grow schema.dims) (facts_told content)
        (apply_batch (growth_difference policy schema (dims_with grow schema.dims) (facts_told content)) content) }
    ensures text { (policy : Policy) (schema : SchemaValue) (content : Stored) (grow : Grow)
        → (apply_batch (growth_difference policy schema (dims_with grow schema.dims) (facts_told content)) content).schema
        ≡ schema_text (over_dims schema (dims_with grow schema.dims)) }
    ensures schema { (policy : Policy) (schema : SchemaValue) (content : Stored) (grow : Grow) → IsSchema schema
        → IsGrowOf schema.dims grow → is_name grow.name ≡ true → judge_growth policy schema.dims (facts_told content) grow ≡ None
        → IsSchema (over_dims schema (dims_with grow schema.dims)) }
    ensures read { (schema : SchemaValue) → IsSchema schema → schema_alone (schema_text schema) ≡ Ok schema }
{}

/// With the batch of new facts of which none is refused it is sound, and it tells all the facts then. So it is with the batch of
/// a file of facts that is accepted over the schema that it holds. The schema's text stays.
pub fn imports_keep_stores_sound()
    ensures holds { (policy : Policy) (shape : ShapeValue) (dims : List Dimension) (content : Stored) (new : List Fact) → IsSound policy shape dims content
        → All (IsPlaced dims) new → refused_among shape dims 1 (facts_told content) new ≡ None
        → row_count (extended policy dims (put_all new (facts_told content))) ≤ MAX_ROWS
        → HoldsState policy shape dims (put_all new (facts_told content)) (apply_batch (difference_with policy dims new (facts_told content)) content) }
    ensures file { (schema : SchemaValue) (content : Stored) (file : List ℕ) → schema_alone content.schema ≡ Ok schema → IsSoundOver schema content
        → IsAccepted (policy_of schema) schema (facts_told content) file
        → HoldsState (policy_of schema) (shape_of schema) schema.dims (facts_with_file schema (facts_told content) file)
        (apply_batch (import_batch (policy_of schema) schema (facts_told content) file) content) }
    ensures schema { (policy : Policy) (dims : List Dimension) (content : Stored) (new : List Fact)
        → (apply_batch (difference_with policy dims new (facts_told content)) content).schema ≡ content.schema }
{}

/// A new store is sound: with the batch of the schema that a text holds alone, an empty content is the one of this schema and of
/// no facts.
pub fn new_stores_are_sound()
    ensures holds { (text : List ℕ) (schema : SchemaValue) → schema_alone text ≡ Ok schema
        → HoldsState (policy_of schema) (shape_of schema) schema.dims [] (apply_batch (schema_batch schema) empty_content) }
    ensures schema { (text : List ℕ) (schema : SchemaValue) → schema_alone text ≡ Ok schema
        → schema_alone (apply_batch (schema_batch schema) empty_content).schema ≡ Ok schema }
{}

/// A sound content with the batches that a script commits is sound. It is that of the state which the script reaches: the
/// dimensions of its schema are those of the state, and it tells the facts of the state. Nothing is found in it.
pub fn scripts_keep_stores_sound()
    ensures sound { (content : Stored) (lines : List (List ℕ)) → IsSoundContent content → IsSoundContent (content_after content lines) }
    ensures state { (content : Stored) (lines : List (List ℕ)) → IsSoundContent content
        → IsOkAnd (schema_alone (content_after content lines).schema)
        (λ schema. state_reached content lines ≡ Some (state_over schema (content_after content lines))) }
    ensures finds { (content : Stored) (lines : List (List ℕ)) → IsSoundContent content → (found : Finding) → Finds (content_after content lines) found → ⊥ }
{}

/// A script goes on over what another left in a sound store as if it stood after that one. Closing the store between
/// them changes neither a reply nor what is kept.
pub fn scripts_go_on_over_what_is_kept()
    ensures { (content : Stored) (lines more : List (List ℕ)) → IsSoundContent content → GoesOnOver content lines more }
{}

/// Whatever the program does, a sound store stays so, and one in which there is nothing is empty or sound: whatever the words of the
/// command line and whatever `cube` says at the end, at faults too, where the source tells its input and the keeper its content.
pub fn runs_leave_stores_sound()
    ensures stays { (words : List (List ℕ)) (seen : SeenAll) (end : End) → IsSome seen.source.left → Says words seen end → StaysSound seen.keeper }
    ensures begins { (words : List (List ℕ)) (seen : SeenAll) (end : End) → IsSome seen.source.left → Says words seen end → BeginsSound seen.keeper }
{}

/// `rebuild` that is finished leaves a sound store, whatever rows it had: where the keeper tells its content, that is sound afterwards,
/// and its schema and its facts are those of before.
pub fn rebuilding_makes_stores_sound()
    ensures { (seen : SeenAll) (refused : ℕ) → SaysOf (Some (command.Store store_command.Rebuild)) seen (ends.Finished refused)
        → Holds seen.keeper (λ content. IfSome seen.keeper.told_after.content (IsRebuilt content)) }
{}
