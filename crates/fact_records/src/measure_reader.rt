//! Reading the name of a measure.
ghost use Rattle.std.specs.Prelude.{◌≡◌, ◌<◌, length, IfOk};
ghost use Rattle.fact_records.specs.MeasureFields.{IsMeasureOf, is_measure_of, is_of_kind, measure_given};

use crate::{Kind, Shape};
use cube_base::Code;

/// A kind of measures, whatever their scales and outcomes are.
#[derive(Clone, Copy, Debug, PartialEq, Eq)]
pub enum MeasureKind {
    /// Measures of numbers.
    Number,
    /// Measures of distributions.
    Parts,
}

/// The place of the measure of a name, which must be one of the wanted kind: `Measure` where no measure has the name, or
/// one of the other kind. It takes no memory.
pub fn read_measure(shape: &Shape, wanted: MeasureKind, name: &str) -> Result<u32, Code>
    ensures measure { result ≡ measure_given shape.now wanted name.now }
    ensures within { IfOk result (IsMeasureOf shape.now wanted) }
{
    let Some(i) = shape.find(name) else {
        return Err(Code::Measure);
    };
    if is_measure_of(shape, wanted, i) {
        Ok(i)
    } else {
        Err(Code::Measure)
    }
}

/// Whether the measure at a place is of a kind.
fn is_measure_of(shape: &Shape, wanted: MeasureKind, i: u32) -> bool
    requires { i < length shape.now.measures }
    ensures { result ≡ is_measure_of shape.now wanted i }
{
    is_of_kind(wanted, &shape.measure(i).kind)
}

/// Whether values are of a kind.
fn is_of_kind(wanted: MeasureKind, kind: &Kind) -> bool
    ensures { result ≡ is_of_kind wanted kind.now }
{
    match wanted {
        MeasureKind::Number => matches!(kind, Kind::Number),
        MeasureKind::Parts => matches!(kind, Kind::Parts { .. }),
    }
}
