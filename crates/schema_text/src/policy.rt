//! How the cells of a schema weigh: the policy as its line gives it, and over the measures.
ghost use Rattle.std.specs.Prelude.{◌≡◌, ◌<◌, ◌&&◌, Some, None, true, length, IfOk, IfErr, IfSome, OnOk};
ghost use Rattle.std.specs.Str.{bytes_eq};
ghost use Rattle.cube_base.specs.Name.{is_name};
ghost use Rattle.text_lines.specs.Text.{fields_of};
ghost use Rattle.text_lines.specs.LineText.{field_at};
ghost use Rattle.fact_records.specs.Fields.{is_number_measure};
ghost use Rattle.fact_records.specs.Shape.{AreMeasures, IsWeighable};
ghost use Rattle.schema_text.specs.Draft.{policy_fault};
ghost use Rattle.schema_text.specs.Fault.{IsCause};
ghost use Rattle.schema_text.specs.Schema.{weigh_of, weighing_measure};
ghost use Rattle.schema_text.specs.SchemaText.{is_weight_word, number_measure_named, policy_among, policy_named};

use crate::fault::LineFault;
use crate::measures::has_name;
use crate::name::{is_name, name_of};
use crate::word::{PolicyWord, is_weight_word};
use cell_weight::{CellStat, WeightPolicy};
use cube_base::{Code, Memory, Name};
use fact_records::{Kind, Measure, Shape};
use std::alloc::Global;
use text_lines::{field_at, is_text};

impl WeightPolicy for PolicyWord {
    ghost use Rattle.std.proofs.Common.{arith};
    ghost use Rattle.schema_text.specs.declared.word.PolicyWord.TheVariants.{Uniform, Count, Weight};

    ghost weigh = { weigh_of };

    ghost bound = { elim [ Uniform ↦ λ s is. omega arith | Count ↦ λ s is. omega arith | Weight measure ↦ λ s is. omega (arith, is.light) ] };

    fn weight(&self, s: CellStat) -> u64 {
        match self {
            PolicyWord::Uniform => 1,
            PolicyWord::Count => s.count,
            PolicyWord::Weight(_) => s.sum,
        }
    }
}

/// A policy as its line gives it, before the measures are known.
#[derive(Drop)]
pub enum NamedPolicy {
    /// Every cell weighs the same.
    Uniform,
    /// A cell weighs as much as it has precise facts.
    Count,
    /// A cell weighs the sum of the number measure of this name over its precise facts.
    Weight(Name),
}

/// Takes the policy of a line that has as many fields as it needs.
pub fn take_policy(alloc: Global, policy: &mut NamedPolicy, line: &[u8]) -> Result<(), LineFault>
    ensures made { OnOk result (policy_named (field_at (fields_of line.now) 1) (field_at (fields_of line.now) 2) ≡ Some policy.new) }
    ensures accepted { OnOk result (policy_fault (fields_of line.now) ≡ None) }
    ensures refused { IfErr result (IsCause (policy_fault (fields_of line.now))) }
{
    *policy = read_policy(alloc, line)?;
    Ok(())
}

/// The policy of a line that has as many fields as it needs, or the first of the conditions that refuse it.
fn read_policy(alloc: Global, line: &[u8]) -> Result<NamedPolicy, LineFault>
    ensures read { IfOk result (λ policy. policy_named (field_at (fields_of line.now) 1) (field_at (fields_of line.now) 2) ≡ Some policy) }
    ensures accepted { OnOk result (policy_fault (fields_of line.now) ≡ None) }
    ensures refused { IfErr result (IsCause (policy_fault (fields_of line.now))) }
{
    let word = field_at(line, 1);
    let name = field_at(line, 2);
    if is_weight_word(word) && !is_name(name) {
        return Err(LineFault::Refused(Code::Name));
    }
    match policy_named(alloc, word, name)? {
        Some(policy) => Ok(policy),
        None => Err(LineFault::Refused(Code::Policy)),
    }
}

/// The policy that a word and the name after it give; of the name nothing is asked but for a weight.
fn policy_named(alloc: Global, word: &[u8], name: &[u8]) -> Result<Option<NamedPolicy>, Memory>
    requires { is_weight_word word.now ≡ true → is_name name.now ≡ true }
    ensures { IfOk result (λ policy. policy ≡ policy_named word.now name.now) }
{
    if is_text(word, "uniform") {
        Ok(Some(NamedPolicy::Uniform))
    } else if is_text(word, "count") {
        Ok(Some(NamedPolicy::Count))
    } else if is_weight_word(word) {
        Ok(Some(NamedPolicy::Weight(name_of(alloc, name)?)))
    } else {
        Ok(None)
    }
}

/// The policy with the place of its measure: None where no number measure has the name.
pub fn policy_among(measures: &[Measure], policy: &NamedPolicy) -> Option<PolicyWord>
    requires { AreMeasures measures.now }
    ensures placed { result ≡ policy_among measures.now policy.now }
    ensures weighable { IfSome result (λ word. IsWeighable measures.now (weighing_measure word)) }
{
    match policy {
        NamedPolicy::Uniform => Some(PolicyWord::Uniform),
        NamedPolicy::Count => Some(PolicyWord::Count),
        NamedPolicy::Weight(name) => {
            let place = place_of(measures, name)?;
            Some(PolicyWord::Weight(place as u32))
        }
    }
}

/// The place of the number measure of a name.
fn place_of(measures: &[Measure], name: &Name) -> Option<usize>
    ensures named { result ≡ number_measure_named measures.now name.now }
    ensures within { IfSome result (λ i. i < length measures.now) }
{
    measures.iter().position(|m| is_number_named(m, name))
}

/// Whether a measure is one of numbers and has a name.
fn is_number_named(measure: &Measure, name: &Name) -> bool
    ensures { result ≡ is_number_measure measure.now.kind && bytes_eq measure.now.name name.now }
{
    is_number_measure(&measure.kind) && has_name(measure, name.text().as_bytes())
}

/// Whether a measure is one of numbers.
fn is_number_measure(kind: &Kind) -> bool
    ensures { result ≡ is_number_measure kind.now }
{
    match kind {
        Kind::Number => true,
        Kind::Parts { .. } => false,
    }
}

/// The shape, whose cells weigh by the measure of the policy.
pub fn weigh_by(shape: Shape, policy: PolicyWord) -> Shape
    requires weighable { IsWeighable shape.measures (weighing_measure policy) }
    requires even { shape.weight ≡ None }
    ensures { result ≡ record shape { weight = weighing_measure policy } }
{
    match policy {
        PolicyWord::Uniform | PolicyWord::Count => shape,
        PolicyWord::Weight(measure) => shape.with_weight(measure),
    }
}
