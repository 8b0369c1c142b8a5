//! Facts that are shared among cells round after round, and those that depend on each other.
use crate::examples::REPAIRS_EVENLY;
use crate::limits::push_nodes;
use crate::runs::{Case, Ending, REPAIRS, WHOLE, hold, run};
use crate::weights::BY_REPAIRS;
use std::alloc::{AllocError, Global};
use std::fmt::Write;

const CASES: [Case; 10] = [
    // A round by what is known.
    (
        REPAIRS,
        "insert\t1\tAustin\tCamry\t100\ninsert\t2\tAustin\tCamry\t300\ninsert\t3\tDallas\tCamry\t50\ninsert\t4\tTX\tCamry\t600\niterate\t1\tAustin\tCamry\ncomponent\t4\ncomponent\t1\n",
        "ok\t1\nok\t1\nok\t1\nok\t1\niterate\t2796202\t838860400\ncomponent\t1\t4\ncomponent\t1\t1\n",
        Ending::Finished { refused: 0 },
    ),
    // The policy plays no part: by counts,
    (
        REPAIRS,
        "insert\t1\tAustin\tCamry\t100\ninsert\t2\tAustin\tCamry\t300\ninsert\t3\tDallas\tCamry\t50\ninsert\t4\tTX\tCamry\t600\niterate\t1\tAustin\tCamry\nwithdraw\t3\niterate\t1\tAustin\tCamry\ncomponent\t4\n",
        "ok\t1\nok\t1\nok\t1\nok\t1\niterate\t2796202\t838860400\nok\t1\niterate\t3145728\t1048576000\ncomponent\t1\t4\n",
        Ending::Finished { refused: 0 },
    ),
    // evenly,
    (
        REPAIRS_EVENLY,
        "insert\t1\tAustin\tCamry\t100\ninsert\t2\tAustin\tCamry\t300\ninsert\t3\tDallas\tCamry\t50\ninsert\t4\tTX\tCamry\t600\niterate\t1\tAustin\tCamry\nwithdraw\t3\niterate\t1\tAustin\tCamry\ncomponent\t4\n",
        "ok\t1\nok\t1\nok\t1\nok\t1\niterate\t2796202\t838860400\nok\t0\niterate\t3145728\t1048576000\ncomponent\t1\t4\n",
        Ending::Finished { refused: 0 },
    ),
    // and by sums.
    (
        BY_REPAIRS,
        "insert\t1\tAustin\tCamry\t100\ninsert\t2\tAustin\tCamry\t300\ninsert\t3\tDallas\tCamry\t50\ninsert\t4\tTX\tCamry\t600\niterate\t1\tAustin\tCamry\nwithdraw\t3\niterate\t1\tAustin\tCamry\ncomponent\t4\n",
        "ok\t1\nok\t1\nok\t1\nok\t1\niterate\t2796202\t838860400\nok\t1\niterate\t3145728\t1048576000\ncomponent\t1\t4\n",
        Ending::Finished { refused: 0 },
    ),
    // Rounds in which facts draw on each other.
    (
        REPAIRS,
        "insert\t1\tAustin\tCamry\t0\ninsert\t2\tCA\tCamry\t0\ninsert\t3\tAll\tCamry\t0\niterate\t1\tLA\tCamry\niterate\t2\tLA\tCamry\niterate\t2\tAustin\tCamry\ncomponent\t2\n",
        "ok\t1\nok\t1\nok\t1\niterate\t524288\t0\niterate\t699050\t0\niterate\t1747626\t0\ncomponent\t2\t2\t3\n",
        Ending::Finished { refused: 0 },
    ),
    // Thirds are rounded down, in each round alike.
    (
        REPAIRS,
        "insert\t1\tTX\tCamry\t7\ninsert\t2\tCA\tCamry\t-3\niterate\t1\tAustin\tCamry\niterate\t32\tTX\tSedan\ncomponent\t1\ncomponent\t2\n",
        "ok\t1\nok\t1\niterate\t349525\t2446675\niterate\t1048575\t7340025\ncomponent\t1\t1\ncomponent\t1\t2\n",
        Ending::Finished { refused: 0 },
    ),
    // A chain of facts.
    (
        REPAIRS,
        "insert\t1\tTX\tCamry\t7\ninsert\t2\tAustin\tSedan\t-3\ninsert\t9\tDallas\tSedan\t1\ninsert\t3\tCA\tTruck\t1\ncomponent\t9\ncomponent\t3\niterate\t2\tAustin\tAll\nwithdraw\t1\ncomponent\t9\niterate\t2\tAustin\tAll\n",
        "ok\t1\nok\t1\nok\t1\nok\t1\ncomponent\t3\t1\t2\t9\ncomponent\t1\t3\niterate\t1485481\t-87383\nok\t0\ncomponent\t1\t9\niterate\t1048576\t-3145728\n",
        Ending::Finished { refused: 0 },
    ),
    // What is known draws all of it.
    (
        REPAIRS,
        "insert\t1\tHouston\tCamry\t5\ninsert\t2\tTX\tSedan\t9\ninsert\t3\tHouston\tSedan\t1\ninsert\t4\tLA\tAll\t1\niterate\t3\tHouston\tCamry\ncomponent\t3\ngrow\tPlace\tHouston\tMidtown\niterate\t3\tMidtown\tCamry\n",
        "ok\t1\nok\t1\nok\t1\nok\t1\niterate\t3145728\t15728640\ncomponent\t2\t2\t3\nok\t0\niterate\t3145728\t15728640\n",
        Ending::Finished { refused: 0 },
    ),
    // Rounds of no fact.
    (
        REPAIRS,
        "iterate\t3\tAll\tAll\n",
        "iterate\t0\t0\n",
        Ending::Finished { refused: 0 },
    ),
    // Each refusal of rounds and components.
    (
        REPAIRS,
        "insert\t1\tAustin\tCamry\t100\ninsert\t2\tAustin\tCamry\t300\ninsert\t3\tDallas\tCamry\t50\ninsert\t4\tTX\tCamry\t600\niterate\t0\tWaco\tAll\niterate\t33\tWaco\tCamry\niterate\t01\tAustin\tCamry\niterate\t1\tWaco\tCamry\niterate\t1\tAustin\ncomponent\t0\ncomponent\t7\ncomponent\n",
        "ok\t1\nok\t1\nok\t1\nok\t1\nerror\tnumber\nerror\tnumber\nerror\tnumber\nerror\tnode\nerror\tfields\nerror\tid\nerror\tmissing\nerror\tfields\n",
        Ending::Finished { refused: 8 },
    ),
];

#[test]
fn rounds_and_components(rt: HostRuntime) {
    assert!(rt; hold(rt.alloc(), &CASES));
}

/// The leaves of each of two dimensions. A row and a column are known of each.
const SIDE: u32 = 1_000;

/// Rows and columns by turns, each of which crosses the next, and then questions.
fn crossing_input(alloc: Global) -> Result<String, AllocError> {
    let mut text = String::from_str(
        alloc,
        "cube\t1\npolicy\tuniform\ndimension\tX\nnode\t0\tL\n",
    )?;
    push_nodes(&mut text, 1, 'l', SIDE)?;
    text.push_str("dimension\tY\nnode\t0\tR\n")?;
    push_nodes(&mut text, 1, 's', SIDE)?;
    text.push_str("end\n")?;
    for k in 1..=SIDE {
        let id = u64::from(k) * 2;
        write!(text, "insert\t{id}\tl{k}\tR\n")?;
        let next = id + 1;
        write!(text, "insert\t{next}\tL\ts{k}\n")?;
    }
    text.push_str("component\t2000\niterate\t1\tL\tR\niterate\t32\tl1\tR\n")?;
    Ok(text)
}

/// All facts are of one component, and each is shared evenly, as all cells stand alike.
fn crossing_replies(alloc: Global) -> Result<String, AllocError> {
    let mut text = String::new(alloc);
    for _ in 0..2 * SIDE {
        text.push_str("ok\t1\n")?;
    }
    text.push_str("component\t2000")?;
    for id in 2..2 * SIDE + 2 {
        write!(text, "\t{id}")?;
    }
    text.push_str("\niterate\t2096000000\niterate\t2096000\n")?;
    Ok(text)
}

fn is_one_component(alloc: Global) -> Result<bool, AllocError> {
    let ran = run(alloc, &["try"], crossing_input(alloc)?.as_bytes(), &WHOLE)?;
    Ok(ran.is(Ending::Finished { refused: 0 }, &crossing_replies(alloc)?))
}

#[test]
fn chain_of_2000_regions(rt: HostRuntime) {
    assert!(rt; is_one_component(rt.alloc()) == Ok(true));
}
