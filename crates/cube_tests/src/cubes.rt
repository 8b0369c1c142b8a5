//! A cube that is used as a library: its edits and answers, and the texts of faults.
ghost use Rattle.std.specs.Prelude.{◌≡◌, ◌<◌, IfOk};
ghost use Rattle.fact_records.specs.Valid.{IsEditOver};

use cell_weight::BySum;
use cube_base::{Code, Cols};
use cube_core::{Cube, EditFault};
use cube_model::{Edit, Fact, MAX_ID, MIN_ID};
use fact_keeper::NoKeeper;
use region_algebra::Space;
use region_index::Steps;
use schema_text::{Schema, read_schema};
use std::alloc::Global;
use std::marker::Brand;
use std::sync::ledger::{Blank, Ledger};
use std::test::Fail;

/// Three places in a state, where cells weigh by the sums of repairs.
const REPAIRS: &[u8] =
    b"cube\t1\npolicy\tweight\tRepair\nnumber\tRepair\ndimension\tPlace\nnode\t0\tAll\nnode\t1\tTX\nnode\t2\tAustin\nnode\t2\tDallas\nnode\t2\tHouston\nend\n";

/// The schema of a text.
fn schema_of(alloc: Global, text: &[u8]) -> Result<Schema, Fail> {
    match read_schema(alloc, text) {
        Ok((schema, _)) => Ok(schema),
        Err(_) => Err("no schema".into()),
    }
}

/// What is done with a fact.
#[derive(Clone, Copy)]
enum Word {
    Put,
    Change,
    Withdraw,
}

use Word::{Change, Put, Withdraw};

/// A word with the id, the place and the value of a fact, and the id of the fact that is new or whose allocation
/// changed.
type Step = (Word, u64, u32, i64, u64);

/// Precise facts and one of the state, one that costs more, and one that goes.
const STEPS: [Step; 6] = [
    (Put, 1, 2, 100, 1),
    (Put, 2, 2, 300, 2),
    (Put, 3, 3, 50, 3),
    (Put, 4, 1, 600, 4),
    (Change, 2, 2, 301, 4),
    (Withdraw, 1, 2, 100, 4),
];

/// A node, a denominator, and what facts there count and cost over it.
type Answer = (u32, u64, i128, i128);

const ANSWERS: [Answer; 4] = [
    (1, 1, 2, 351),
    (1, 351, 351, 210_600),
    (2, 1, 1, 301),
    (2, 351, 301, 180_600),
];

fn edit_of(space: &Space, step: &Step) -> Result<Edit, Fail>
    ensures { IfOk result (IsEditOver space.now) }
{
    let (word, id, node, value, _) = *step;
    if id < MIN_ID || id > MAX_ID {
        return Err("no id".into());
    }
    let fact = Fact {
        id,
        region: space.region(&[node]).ok_or("no region")?,
        cols: Cols::new(&[value]).ok_or("no columns")?,
    };
    match word {
        Put => Ok(Edit::Put(fact)),
        Change => Ok(Edit::Change(fact)),
        Withdraw => Ok(Edit::Withdraw(id)),
    }
}

/// Whether an edit is done, and there is only one fact that is new or whose allocation changed.
fn is_done<L: Ledger>(cube: &mut Cube<BySum>, step: &Step, blank: Blank) -> Result<bool, Fail>
    requires { (blank.name ≡ L.name) × (blank.parts ≡ L.parts) × (0 < L.parts) }
{
    let edit = edit_of(cube.schema().space(), step)?;
    let mut steps = Steps::<L>::new(blank);
    match cube.edit(&edit, &mut NoKeeper::new(), &mut steps) {
        Ok(receipt) => Ok(receipt.refreshed.as_slice() == [step.4].as_slice()),
        Err(_) => Ok(false),
    }
}

fn are_done(cube: &mut Cube<BySum>, steps: &[Step]) -> Result<bool, Fail> {
    for step in steps {
        if !is_done::<Brand>(cube, step, Blank::new(1))? {
            return Ok(false);
        }
    }
    Ok(true)
}

/// Whether the facts at a node count and cost so much over a denominator.
fn is_answered(cube: &Cube<BySum>, answer: &Answer) -> Result<bool, Fail> {
    let (node, den, count, sum) = *answer;
    let region = cube.schema().space().region(&[node]).ok_or("no region")?;
    let terms = cube.answer(region)?;
    Ok(terms.columns() == 2 && terms.count_num(den) == count && terms.num(den, 1) == sum)
}

fn are_answered(cube: &Cube<BySum>, answers: &[Answer]) -> Result<bool, Fail> {
    for answer in answers {
        if !is_answered(cube, answer)? {
            return Ok(false);
        }
    }
    Ok(true)
}

/// Whether edits are done one after another, and questions then answered.
fn does_and_answers(
    cube: &mut Cube<BySum>,
    steps: &[Step],
    answers: &[Answer],
) -> Result<bool, Fail> {
    Ok(are_done(cube, steps)? && are_answered(cube, answers)?)
}

/// One function alone owns the cube.
fn are_done_and_answered(alloc: Global, steps: &[Step], answers: &[Answer]) -> Result<bool, Fail> {
    let mut cube = Cube::new(alloc, schema_of(alloc, REPAIRS)?, BySum)?;
    let answered = does_and_answers(&mut cube, steps, answers);
    drop(cube);
    answered
}

#[test]
fn edits_are_done(rt: HostRuntime) -> Result<(), Fail> {
    assert!(rt; are_done_and_answered(rt.alloc(), &STEPS, &ANSWERS)?);
    Ok(())
}

const FAULTS: [(EditFault, &str); 4] = [
    (EditFault::Code(Code::Exists), "refused: exists"),
    (
        EditFault::Rows { would: 2_097_153 },
        "there would be 2097153 rows",
    ),
    (EditFault::KeepFault, "the store failed"),
    (EditFault::Memory, "no memory"),
];

fn is_shown(alloc: Global, fault: &EditFault, text: &str) -> Result<bool, Fail> {
    Ok(format!(in alloc; "{fault}")?.as_str() == text)
}

fn are_shown(alloc: Global, faults: &[(EditFault, &str)]) -> Result<bool, Fail> {
    for (fault, text) in faults {
        if !is_shown(alloc, fault, text)? {
            return Ok(false);
        }
    }
    Ok(true)
}

#[test]
fn faults_are_shown(rt: HostRuntime) -> Result<(), Fail> {
    assert!(rt; are_shown(rt.alloc(), &FAULTS)?);
    Ok(())
}
