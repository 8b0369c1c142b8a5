//! The measures of a cube, and which columns hold their values.
ghost use Rattle.std.specs.Prelude.{◌≡◌, ◌≢◌, ◌+◌, ◌<◌, ◌≤◌, All, AllPairs, None, Some, IfOk, IfSome, length, slice_get};
ghost use Rattle.std.specs.Str.{bytes_eq};
ghost use Rattle.cube_model.specs.Limits.{MAX_COLS};
ghost use Rattle.fact_records.specs.Shape.{AreInOrder, AreMeasures, HasScale, IsShape, IsWeighable, IsWithin, is_weight, measure_named, width_of, width_of_all};

use crate::copies::copy_measures;
use cube_base::{Memory, Name, Names};
use std::marker::Model;

/// What the values of a measure are.
#[derive(Drop)]
pub enum Kind {
    /// One whole number.
    Number,
    /// A distribution: one part per outcome, and the parts add up to the scale.
    Parts {
        /// What the parts add up to: from 1 to 1,000,000.
        scale: u32,
        /// The names of the outcomes, in the order of their columns.
        outcomes: Names,
    },
}

/// A measure.
#[derive(Drop)]
pub struct Measure {
    /// Its name, which no other measure has.
    pub name: Name,
    /// What its values are.
    pub kind: Kind,
    /// The first of its columns: 1 or above, since column 0 is the count.
    pub first_col: u32,
}

/// The number of columns of a measure of a kind.
pub fn width(kind: &Kind) -> usize
    ensures { result ≡ width_of kind.now }
{
    match kind {
        Kind::Number => 1,
        Kind::Parts { outcomes, .. } => outcomes.as_slice().len(),
    }
}

/// The number of columns of all measures.
fn width_of_all(measures: &[Measure]) -> usize
    requires { width_of_all measures.now ≤ MAX_COLS }
    ensures { result ≡ width_of_all measures.now }
{
    let mut columns = 0;
    for measure in measures {
        columns += width(&measure.kind);
    }
    columns
}

/// Whether a measure has a name.
fn is_named(measure: &Measure, name: &str) -> bool
    ensures { result ≡ bytes_eq measure.now.name name.now }
{
    measure.name.text() == name
}

/// The place of the measure of a name.
fn place_of(measures: &[Measure], name: &str) -> Option<usize>
    ensures named { result ≡ measure_named measures.now name.now }
    ensures within { IfSome result (λ i. i < length measures.now) }
{
    measures.iter().position(|m| is_named(m, name))
}

/// The measures of a cube, in schema order. A number measure has one column, a parts measure one per outcome. Column
/// 0 is the count, which every fact has and which is not stored; the columns of the measures follow in order, at
/// most seven. Cells may weigh by the sum of one of the number measures. Contracts see the list of measures, and the
/// place of that one.
#[derive(Drop)]
pub struct Shape {
    measures: Vec<Measure>,
    weight: Option<u32>,
}

impl Model for Shape {
    ghost use Rattle.fact_records.specs.Shape.{IsShape, ShapeValue};

    ghost Value = { ShapeValue };

    ghost view = { λ s. record { measures = s.measures.items; weight = s.weight } };

    ghost invariant = { λ s. IsShape (record { measures = s.measures.items; weight = s.weight }) };
}

impl Shape {
    /// The shape of these measures, which must be such as a cube can have: no two have one name, each has a column,
    /// their columns follow one another from column 1 on, at most seven of them, and the scale of a distribution is from 1
    /// to 1,000,000. No cell weighs by the sum of one. It takes no memory.
    pub fn new(measures: Vec<Measure>) -> Self
        requires distinct { AllPairs (λ a b. a.name ≢ b.name) measures.items }
        requires some { All (λ m. 1 ≤ width_of m.kind) measures.items }
        requires most { width_of_all measures.items ≤ MAX_COLS }
        requires order { AreInOrder 1 measures.items }
        requires scales { All (λ m. HasScale m.kind) measures.items }
        ensures { result ≡ record { measures = measures.items; weight = None } }
    {
        Shape {
            measures,
            weight: None,
        }
    }

    /// The shape whose cells weigh by the sum of the measure at a place, which must be a number measure. It takes no
    /// memory.
    pub fn with_weight(self, measure: u32) -> Self
        requires { IsWeighable self.measures (Some measure) }
        ensures { result ≡ record self { weight = Some measure } }
    {
        Shape {
            measures: self.measures,
            weight: Some(measure),
        }
    }

    /// The place of the measure by whose sum cells weigh, if there is one.
    pub fn weight_measure(&self) -> Option<u32>
        ensures weight { result ≡ self.now.weight }
        ensures number { IsWeighable self.now.measures result }
    {
        self.weight
    }

    /// An equal shape.
    pub fn copy(&self) -> Result<Self, Memory>
        ensures { IfOk result (λ copy. copy ≡ self.now) }
    {
        Ok(Shape {
            measures: copy_measures(*self.measures.allocator(), &self.measures)?,
            weight: self.weight,
        })
    }

    /// The number of measures.
    pub fn len(&self) -> u32
        ensures count { result ≡ length self.now.measures }
        ensures shape { IsShape self.now }
    {
        self.measures.len() as u32
    }

    /// The number of columns, the count included.
    pub fn columns(&self) -> u32
        ensures columns { result ≡ 1 + width_of_all self.now.measures }
        ensures shape { IsShape self.now }
        ensures some { 1 ≤ result }
        ensures most { result ≤ 1 + MAX_COLS }
    {
        1 + width_of_all(&self.measures) as u32
    }

    /// The measure at a place, which must be below their number.
    pub fn measure(&self, i: u32) -> &Measure
        requires { i < length self.now.measures }
        ensures measure { slice_get self.now.measures i ≡ Some result.now }
        ensures within { IsWithin MAX_COLS result.now }
    {
        &self.measures[i as usize]
    }

    /// The place of the measure of a name: None exactly where there is none.
    pub fn find(&self, name: &str) -> Option<u32>
        ensures found { result ≡ measure_named self.now.measures name.now }
        ensures within { IfSome result (λ i. i < length self.now.measures) }
    {
        let place = place_of(&self.measures, name)?;
        Some(place as u32)
    }

    /// The measures in order.
    pub(crate) fn measures(&self) -> &[Measure]
        ensures measures { result.now ≡ self.now.measures }
        ensures shape { AreMeasures result.now }
    {
        &self.measures
    }

    /// Whether cells weigh by the sum of a measure.
    pub(crate) fn is_weight(&self, measure: &Measure) -> bool
        ensures { result ≡ is_weight self.now measure.now }
    {
        match self.weight {
            Some(i) => self.measures[i as usize].first_col == measure.first_col,
            None => false,
        }
    }
}
