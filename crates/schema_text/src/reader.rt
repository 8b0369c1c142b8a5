//! A schema while its lines are read.
ghost use Rattle.std.specs.Prelude.{◌≡◌, ◌≢◌, ◌≤◌, ◌++◌, ◌∷◌, [], true, false, length, Some, None, IfOk, IfErr, OnOk, All};
ghost use Rattle.cube_base.specs.Name.{is_name};
ghost use Rattle.cube_model.specs.Limits.{MAX_DIMS};
ghost use Rattle.text_lines.specs.Text.{fields_of};
ghost use Rattle.text_lines.specs.LineText.{field_at};
ghost use Rattle.fact_records.specs.Shape.{AreMeasures, IsWeighable, width_of_all};
ghost use Rattle.schema_text.specs.declared.word.SchemaWord.TheVariants as schema_word;
ghost use Rattle.schema_text.specs.Draft.{dimension_fault, front_fault, end_fault, size_code, view_fault, word_in};
ghost use Rattle.schema_text.specs.Fault.{IsCause};
ghost use Rattle.schema_text.specs.Kept.{IsReader, KnowsNodes, draft_of};
ghost use Rattle.schema_text.specs.Schema.{AreNames, AreViews, IsKind, weighing_measure};
ghost use Rattle.schema_text.specs.SchemaText.{blank_draft, dims_of, draft_line_fault, ended, has_wrong_count, is_end, may_follow, policy_among, schema_of_draft, view_of_fields, with_line, with_word, word_fault};

use crate::fault::LineFault;
use crate::measures::{take_number, take_parts};
use crate::name::{is_wrong_name, name_of};
use crate::open_dim::OpenDim;
use crate::policy::{NamedPolicy, policy_among, take_policy, weigh_by};
use crate::schema::Schema;
use crate::views::{push_view, read_view};
use crate::word::{PolicyWord, SchemaWord, has_wrong_count, may_follow, word_named};
use cube_base::{Code, Name, Names};
use cube_model::MAX_DIMS;
use dim_tree::Dim;
use fact_records::{Measure, Shape};
use region_algebra::{Space, SpaceFault, ViewDef, ViewDefs};
use std::alloc::Global;
use std::mem;
use text_lines::{field_at, is_clean, is_long, without_cr};

/// What accepted lines of a schema say. What a fault leaves is not said.
#[derive(Drop)]
pub struct Reader {
    /// The word of the last line.
    pub last: Option<SchemaWord>,
    pub policy: NamedPolicy,
    pub measures: Vec<Measure>,
    /// The number of columns of the measures.
    pub columns: usize,
    /// The names of the dimensions.
    pub names: Vec<Name>,
    /// The dimensions that are ended: all but the one that was named last.
    pub dims: Vec<Dim>,
    /// The dimension that was named last, and the version.
    pub named_last: OpenDim,
    pub views: Vec<ViewDef>,
}

impl Reader {
    /// Before the first line.
    pub fn new(alloc: Global) -> Self
        ensures blank { draft_of result ≡ blank_draft }
        ensures reader { IsReader result }
    {
        Reader {
            last: None,
            policy: NamedPolicy::Uniform,
            measures: Vec::new(alloc),
            columns: 0,
            names: Vec::new(alloc),
            dims: Vec::new(alloc),
            named_last: OpenDim::new(alloc),
            views: Vec::new(alloc),
        }
    }

    /// Takes a line, which is not `end`: what it says, or the first of the conditions that refuse it.
    pub fn take_line(&mut self, alloc: Global, line: &[u8]) -> Result<(), LineFault>
        requires reader { IsReader self.old }
        requires goes_on { is_end line.now ≡ false }
        ensures made { OnOk result (draft_of self.new ≡ with_line (draft_of self.old) line.now) }
        ensures reader { OnOk result (IsReader self.new) }
        ensures accepted { OnOk result (draft_line_fault (draft_of self.old) line.now ≡ None) }
        ensures refused { IfErr result (IsCause (draft_line_fault (draft_of self.old) line.now)) }
    {
        match word_in(self.last, line) {
            Ok(word) => self.take_word(alloc, without_cr(line), word),
            Err(code) => Err(LineFault::Refused(code)),
        }
    }

    /// Takes a line, which is not `end`, of a word that may stand here.
    fn take_word(&mut self, alloc: Global, line: &[u8], word: SchemaWord) -> Result<(), LineFault>
        requires reader { IsReader self.old }
        requires follows { may_follow self.old.last word ≡ true }
        requires goes_on { word ≡ schema_word.End → length (fields_of line.now) ≢ 1 }
        ensures made { OnOk result (draft_of self.new ≡ with_word (draft_of self.old) (fields_of line.now) word) }
        ensures reader { OnOk result (IsReader self.new) }
        ensures accepted { OnOk result (word_fault (draft_of self.old) (fields_of line.now) word ≡ None) }
        ensures refused { IfErr result (IsCause (word_fault (draft_of self.old) (fields_of line.now) word)) }
    {
        if has_wrong_count(self.named_last.version, self.names.len(), line, word) {
            return Err(LineFault::Refused(Code::Fields));
        }
        self.take_fields(alloc, line, word)?;
        self.last = Some(word);
        Ok(())
    }

    /// Takes the fields of such a line, as many as it needs; the word is set after it.
    fn take_fields(&mut self, alloc: Global, line: &[u8], word: SchemaWord) -> Result<(), LineFault>
        requires reader { IsReader self.old }
        requires follows { may_follow self.old.last word ≡ true }
        requires count { has_wrong_count self.old.named_last.version (length self.old.names.items) (fields_of line.now) word ≡ false }
        requires goes_on { word ≢ schema_word.End }
        ensures made { OnOk result (record (draft_of self.new) { last = Some word } ≡ with_word (draft_of self.old) (fields_of line.now) word) }
        ensures width { OnOk result (self.new.columns ≡ width_of_all self.new.measures.items) }
        ensures kept { OnOk result (KnowsNodes self.new.named_last) }
        ensures accepted { OnOk result (word_fault (draft_of self.old) (fields_of line.now) word ≡ None) }
        ensures refused { IfErr result (IsCause (word_fault (draft_of self.old) (fields_of line.now) word)) }
    {
        match word {
            SchemaWord::Cube => self.named_last.take_version(line),
            SchemaWord::Policy => take_policy(alloc, &mut self.policy, line),
            SchemaWord::Number => take_number(alloc, &mut self.measures, &mut self.columns, line),
            SchemaWord::Parts => take_parts(alloc, &mut self.measures, &mut self.columns, line),
            SchemaWord::Dimension => self.take_dimension(alloc, line),
            SchemaWord::Node => self.named_last.take_node(alloc, line),
            SchemaWord::View => self.take_view(alloc, line),
            SchemaWord::End => unreachable!(),
        }
    }

    /// Takes the name of a dimension, before which the last one ends, if there is one.
    fn take_dimension(&mut self, alloc: Global, line: &[u8]) -> Result<(), LineFault>
        requires reader { IsReader self.old }
        ensures names { OnOk result (self.new.names.items ≡ self.old.names.items ++ field_at (fields_of line.now) 1 ∷ []) }
        ensures dims { OnOk result (self.new.dims.items ≡ self.old.dims.items ++ ended self.old.named_last.nodes.items) }
        ensures nodes { OnOk result (self.new.named_last.nodes.items ≡ []) }
        ensures version { self.new.named_last.version ≡ self.old.named_last.version }
        ensures kept { OnOk result (KnowsNodes self.new.named_last) }
        ensures others { (self.new.policy ≡ self.old.policy) × (self.new.measures ≡ self.old.measures) × (self.new.columns ≡ self.old.columns) × (self.new.views ≡ self.old.views) }
        ensures accepted { OnOk result (dimension_fault self.old.names.items self.old.named_last.nodes.items (fields_of line.now) ≡ None) }
        ensures refused { IfErr result (IsCause (dimension_fault self.old.names.items self.old.named_last.nodes.items (fields_of line.now))) }
    {
        let name = field_at(line, 1);
        if is_wrong_name(name, &self.names) {
            return Err(LineFault::Refused(Code::Name));
        }
        self.named_last.end_into(alloc, &mut self.dims)?;
        if self.names.len() >= MAX_DIMS {
            return Err(LineFault::Refused(Code::Limit));
        }
        self.names.push(name_of(alloc, name)?)?;
        Ok(())
    }

    /// Takes a view, before which the last dimension ends, if it has not.
    fn take_view(&mut self, alloc: Global, line: &[u8]) -> Result<(), LineFault>
        requires reader { IsReader self.old }
        requires count { 2 ≤ length (fields_of line.now) }
        ensures views { OnOk result (self.new.views.items ≡ self.old.views.items ++ view_of_fields (fields_of line.now) ∷ []) }
        ensures dims { OnOk result (self.new.dims.items ≡ self.old.dims.items ++ ended self.old.named_last.nodes.items) }
        ensures nodes { OnOk result (self.new.named_last.nodes.items ≡ []) }
        ensures version { self.new.named_last.version ≡ self.old.named_last.version }
        ensures kept { OnOk result (KnowsNodes self.new.named_last) }
        ensures others { (self.new.policy ≡ self.old.policy) × (self.new.measures ≡ self.old.measures) × (self.new.columns ≡ self.old.columns) × (self.new.names ≡ self.old.names) }
        ensures accepted { OnOk result (view_fault self.old.views.items self.old.named_last.nodes.items (fields_of line.now) ≡ None) }
        ensures refused { IfErr result (IsCause (view_fault self.old.views.items self.old.named_last.nodes.items (fields_of line.now))) }
    {
        let view = read_view(alloc, &self.views, line)?;
        self.named_last.end_into(alloc, &mut self.dims)?;
        push_view(&mut self.views, view)
    }

    /// The schema, where the line `end` comes next, or the first of the conditions that refuse it.
    pub fn finish(&mut self, alloc: Global) -> Result<Schema, LineFault>
        requires { IsReader self.old }
        ensures made { IfOk result (λ schema. schema ≡ schema_of_draft (draft_of self.old)) }
        ensures accepted { OnOk result (end_fault (draft_of self.old) ≡ None) }
        ensures refused { IfErr result (IsCause (end_fault (draft_of self.old))) }
    {
        let policy = self.take_end(alloc)?;
        let space = self.take_space(alloc)?;
        Ok(self.take_schema(alloc, policy, space))
    }

    /// Ends the last dimension, where the line `end` comes next. Answers the policy.
    fn take_end(&mut self, alloc: Global) -> Result<PolicyWord, LineFault>
        requires { IsReader self.old }
        ensures policy { IfOk result (λ policy. policy_among self.old.measures.items self.old.policy ≡ Some policy) }
        ensures weighable { IfOk result (λ policy. IsWeighable self.old.measures.items (weighing_measure policy)) }
        ensures dims { OnOk result (self.new.dims.items ≡ dims_of (draft_of self.old)) }
        ensures named { OnOk result (length self.old.names.items ≡ length self.new.dims.items) }
        ensures others { (self.new.names ≡ self.old.names) × (self.new.measures ≡ self.old.measures) × (self.new.views ≡ self.old.views) }
        ensures accepted { OnOk result (front_fault (draft_of self.old) ≡ None) }
        ensures refused { IfErr result (IsCause (front_fault (draft_of self.old))) }
    {
        if !may_follow(self.last, SchemaWord::End) {
            return Err(LineFault::Refused(Code::Order));
        }
        self.named_last.end_into(alloc, &mut self.dims)?;
        match policy_among(&self.measures, &self.policy) {
            Some(policy) => Ok(policy),
            None => Err(LineFault::Refused(Code::Policy)),
        }
    }

    /// Takes the dimensions away, as a space.
    fn take_space(&mut self, alloc: Global) -> Result<Space, LineFault>
        requires some { 1 ≤ length self.old.dims.items }
        requires few { length self.old.dims.items ≤ MAX_DIMS }
        ensures made { IfOk result (λ space. space ≡ self.old.dims.items) }
        ensures others { (self.new.names ≡ self.old.names) × (self.new.measures ≡ self.old.measures) × (self.new.views ≡ self.old.views) }
        ensures accepted { OnOk result (size_code self.old.dims.items ≡ None) }
        ensures refused { IfErr result (IsCause (size_code self.old.dims.items)) }
    {
        match Space::new(alloc, mem::replace(&mut self.dims, Vec::new(alloc))) {
            Ok(space) => Ok(space),
            Err(SpaceFault::Cells) => Err(LineFault::Refused(Code::Cells)),
            Err(SpaceFault::Nodes) => Err(LineFault::Refused(Code::Nodes)),
            Err(SpaceFault::Dims { .. }) => unreachable!(),
        }
    }

    /// Takes the measures, the names and the views away, as a schema with a policy and a space.
    fn take_schema(&mut self, alloc: Global, policy: PolicyWord, space: Space) -> Schema
        requires measures { AreMeasures self.old.measures.items }
        requires kinds { All (λ m. IsKind m.kind) self.old.measures.items }
        requires measure_names { All (λ m. is_name m.name ≡ true) self.old.measures.items }
        requires weighable { IsWeighable self.old.measures.items (weighing_measure policy) }
        requires names { AreNames self.old.names.items }
        requires named { length self.old.names.items ≡ length space }
        requires views { AreViews (length self.old.names.items) self.old.views.items }
        ensures { result ≡ record { policy = policy; measures = self.old.measures.items; names = self.old.names.items; dims = space; views = self.old.views.items } }
    {
        let measures = mem::replace(&mut self.measures, Vec::new(alloc));
        let names = mem::replace(&mut self.names, Vec::new(alloc));
        let views = mem::replace(&mut self.views, Vec::new(alloc));
        let shape = weigh_by(Shape::new(measures), policy);
        Schema::new(
            space,
            shape,
            policy,
            Names::from(names),
            ViewDefs::from(views),
        )
    }
}

/// The word of a line that may follow another, or the first of the conditions that refuse it.
fn word_in(last: Option<SchemaWord>, line: &[u8]) -> Result<SchemaWord, Code>
    ensures { result ≡ word_in last line.now }
{
    if is_long(line) {
        return Err(Code::Long);
    }
    let line = without_cr(line);
    if !is_clean(line) {
        return Err(Code::Text);
    }
    match word_named(field_at(line, 0)) {
        Some(word) if may_follow(last, word) => Ok(word),
        _ => Err(Code::Order),
    }
}
