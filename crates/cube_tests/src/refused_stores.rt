//! Runs over stores that are there or not, or whose schema, facts or rows are none, and are refused.
use crate::replies::FOUR_REPAIRS;
use crate::runs::{Ending, REPAIRS, WHOLE};
use crate::stored::{CITIES, Held, content_of, run_stored};
use cube_base::{Code, Memory};
use std::alloc::Global;

/// A word, the schema, facts and rows of a store, an input, how the run ends, and whether all of the input is left.
type Refusal = (
    &'static str,
    &'static str,
    Held,
    Held,
    &'static str,
    Ending,
    bool,
);

const REFUSALS: [Refusal; 25] = [
    (
        "init",
        CITIES,
        Held::Nothing,
        Held::Nothing,
        CITIES,
        Ending::HasCube,
        true,
    ),
    (
        "init",
        "x",
        Held::Nothing,
        Held::Nothing,
        CITIES,
        Ending::HasCube,
        true,
    ),
    (
        "init",
        "",
        Held::Cities,
        Held::Nothing,
        CITIES,
        Ending::HasCube,
        true,
    ),
    (
        "init",
        "",
        Held::Nothing,
        Held::Cities,
        CITIES,
        Ending::HasCube,
        true,
    ),
    (
        "run",
        "",
        Held::Nothing,
        Held::Nothing,
        CITIES,
        Ending::NoCube,
        true,
    ),
    (
        "check",
        "",
        Held::Nothing,
        Held::Nothing,
        CITIES,
        Ending::NoCube,
        true,
    ),
    (
        "import",
        "",
        Held::Nothing,
        Held::Nothing,
        CITIES,
        Ending::NoCube,
        true,
    ),
    (
        "export",
        "",
        Held::Nothing,
        Held::Nothing,
        CITIES,
        Ending::NoCube,
        true,
    ),
    (
        "schema",
        "",
        Held::Nothing,
        Held::Nothing,
        CITIES,
        Ending::NoCube,
        true,
    ),
    (
        "rows",
        "",
        Held::Nothing,
        Held::Nothing,
        CITIES,
        Ending::NoCube,
        true,
    ),
    (
        "run",
        "x\n",
        Held::Nothing,
        Held::Nothing,
        CITIES,
        Ending::BadStore,
        true,
    ),
    (
        "run",
        CITIES,
        Held::Cities,
        Held::Nothing,
        CITIES,
        Ending::BadStore,
        true,
    ),
    (
        "import",
        "x\n",
        Held::Nothing,
        Held::Nothing,
        CITIES,
        Ending::BadStore,
        true,
    ),
    (
        "import",
        CITIES,
        Held::Cities,
        Held::Nothing,
        CITIES,
        Ending::BadStore,
        true,
    ),
    (
        "export",
        "x\n",
        Held::Nothing,
        Held::Nothing,
        CITIES,
        Ending::BadStore,
        true,
    ),
    (
        "export",
        CITIES,
        Held::Cities,
        Held::Nothing,
        CITIES,
        Ending::BadStore,
        true,
    ),
    (
        "schema",
        "x\n",
        Held::Nothing,
        Held::Nothing,
        CITIES,
        Ending::BadStore,
        true,
    ),
    (
        "schema",
        CITIES,
        Held::Cities,
        Held::Nothing,
        CITIES,
        Ending::BadStore,
        true,
    ),
    (
        "rows",
        "x\n",
        Held::Nothing,
        Held::Nothing,
        CITIES,
        Ending::BadStore,
        true,
    ),
    (
        "rows",
        CITIES,
        Held::Cities,
        Held::Nothing,
        CITIES,
        Ending::BadStore,
        true,
    ),
    (
        "init",
        REPAIRS,
        Held::Repairs,
        Held::Repairs,
        REPAIRS,
        Ending::HasCube,
        true,
    ),
    (
        "run",
        "",
        Held::Nothing,
        Held::Nothing,
        FOUR_REPAIRS,
        Ending::NoCube,
        true,
    ),
    (
        "init",
        "",
        Held::Nothing,
        Held::Nothing,
        "cube\t1\npolicy\tcount\ndimension\tPlace\nnode\t0\tAll\nend\nx\n",
        Ending::Schema {
            line: 6,
            code: Code::Tail,
        },
        false,
    ),
    (
        "init",
        "",
        Held::Nothing,
        Held::Nothing,
        "cube\t1\npolicy\tcount\n",
        Ending::Schema {
            line: 3,
            code: Code::Cut,
        },
        false,
    ),
    (
        "init",
        "",
        Held::Nothing,
        Held::Nothing,
        "",
        Ending::Schema {
            line: 1,
            code: Code::Cut,
        },
        false,
    ),
];

/// Whether a run is refused, and nothing written or kept.
fn is_refused(alloc: Global, row: &Refusal) -> Result<bool, Memory> {
    let (word, schema, facts, spreads, input, end, is_unread) = *row;
    let content = content_of((schema, facts, spreads));
    let kept = run_stored(alloc, word, content, 0, input.as_bytes(), &WHOLE)?;
    let left = if is_unread { input.len() } else { 0 };
    let is_right = kept.ran.is(end, "")
        && kept.ran.left == left
        && kept.keeper.journal().is_empty();
    drop(kept);
    Ok(is_right)
}

fn are_refused(alloc: Global, rows: &[Refusal]) -> bool {
    for row in rows {
        if is_refused(alloc, row) != Ok(true) {
            return false;
        }
    }
    true
}

#[test]
fn stores_that_are_there_or_not(rt: HostRuntime) {
    assert!(rt; are_refused(rt.alloc(), &REFUSALS));
}
