//! Counts, sums and means as fractions, and as bounds where they are too wide for one.
use crate::runs::{Case, Ending, REPAIRS, WHOLE, hold, run};
use std::alloc::{AllocError, Global};
use std::fmt::Write;

/// Four models in two cities, where a cell weighs as much as its facts say.
const SHARES: &str =
    "cube\t1\npolicy\tweight\tWeight\nnumber\tWeight\nnumber\tValue\ndimension\tCity\nnode\t0\tAll\nnode\t1\ta\nnode\t1\tb\ndimension\tModel\nnode\t0\tAll\nnode\t1\tm1\nnode\t1\tm2\nnode\t1\tm3\nnode\t1\tm4\nend\n";

const CASES: [Case; 5] = [
    (
        REPAIRS,
        "insert\t1\tAustin\tCamry\t100\ninsert\t2\tAustin\tCamry\t300\ninsert\t3\tDallas\tCamry\t50\ninsert\t4\tTX\tCamry\t600\ncount\tAustin\tCamry\nsum\tRepair\tAustin\tCamry\navg\tRepair\tTX\tAll\nchange\t2\tAustin\tCamry\t301\nsum\tRepair\tAustin\tCamry\n",
        "ok\t1\nok\t1\nok\t1\nok\t1\ncount\t2.666666666\t2.666666667\t8/3\nsum\t800.000000000\t800.000000000\t800\navg\t262.500000000\t262.500000000\t525/2\nok\t0\nsum\t801.000000000\t801.000000000\t801\n",
        Ending::Finished { refused: 0 },
    ),
    // Below 0 a bound is the whole number of units on the outer side.
    (
        REPAIRS,
        "insert\t1\tAustin\tCamry\t0\ninsert\t2\tDallas\tCamry\t0\ninsert\t3\tHouston\tCamry\t0\ninsert\t4\tTX\tCamry\t-1\nsum\tRepair\tAustin\tCamry\navg\tRepair\tAustin\tCamry\n",
        "ok\t1\nok\t1\nok\t1\nok\t1\nsum\t-0.333333334\t-0.333333333\t-1/3\navg\t-0.250000000\t-0.250000000\t-1/4\n",
        Ending::Finished { refused: 0 },
    ),
    // Without facts there is a count and a sum, and no mean.
    (
        REPAIRS,
        "count\tAll\tAll\nterms\tAll\tAll\nsum\tRepair\tAll\tAll\navg\tRepair\tAll\tAll\n",
        "count\t0.000000000\t0.000000000\t0\nterms\t0\nsum\t0.000000000\t0.000000000\t0\nerror\tundefined\n",
        Ending::Finished { refused: 1 },
    ),
    // A sum of 0 has a mean.
    (
        REPAIRS,
        "insert\t1\tAustin\tCamry\t5\ninsert\t2\tTX\tCamry\t-5\nsum\tRepair\tTX\tAll\navg\tRepair\tTX\tAll\navg\tRepair\tCA\tAll\n",
        "ok\t1\nok\t1\nsum\t0.000000000\t0.000000000\t0\navg\t0.000000000\t0.000000000\t0\nerror\tundefined\n",
        Ending::Finished { refused: 1 },
    ),
    // The denominators are four primes just below 10^12, so what adds up shares of all four is too wide for one fraction.
    (
        SHARES,
        "insert\t1\ta\tm1\t1\t-3\ninsert\t2\tb\tm1\t999999999988\t5\ninsert\t3\tAll\tm1\t0\t-1000000000000\ninsert\t4\ta\tm2\t1\t-3\ninsert\t5\tb\tm2\t999999999960\t5\ninsert\t6\tAll\tm2\t0\t-1000000000000\ninsert\t7\ta\tm3\t1\t-3\ninsert\t8\tb\tm3\t999999999958\t5\ninsert\t9\tAll\tm3\t0\t-1000000000000\ninsert\t10\ta\tm4\t1\t-3\ninsert\t11\tb\tm4\t999999999936\t5\ninsert\t12\tAll\tm4\t0\t-1000000000000\ncount\ta\tAll\nsum\tValue\ta\tAll\navg\tValue\ta\tAll\nsum\tWeight\ta\tAll\navg\tWeight\ta\tAll\navg\tValue\tb\tAll\navg\tValue\tAll\tAll\navg\tValue\ta\tm1\nsum\tValue\ta\tm1\n",
        "ok\t1\nok\t1\nok\t1\nok\t1\nok\t1\nok\t1\nok\t1\nok\t1\nok\t1\nok\t1\nok\t1\nok\t1\ncount\t4.000000000\t4.000000004\twide\nsum\t-16.000000004\t-16.000000000\twide\navg\t-4.000000001\t-3.999999996\twide\nsum\t4.000000000\t4.000000000\t4\navg\t0.999999999\t1.000000000\twide\navg\t-500000000247.000000124\t-499999999996.999999999\twide\navg\t-333333333332.666666667\t-333333333332.666666666\t-999999999998/3\navg\t-4.000000001\t-4.000000000\t-3999999999967/999999999990\nsum\t-4.000000001\t-4.000000000\t-3999999999967/999999999989\n",
        Ending::Finished { refused: 0 },
    ),
];

#[test]
fn counts_sums_and_means(rt: HostRuntime) {
    assert!(rt; hold(rt.alloc(), &CASES));
}

/// How many models there are.
const MODELS: u64 = 100;

/// Two cities, and models that are sold in both.
fn push_schema(text: &mut String) -> Result<(), AllocError> {
    text.push_str(
        "cube\t1\npolicy\tcount\ndimension\tCity\nnode\t0\tAll\nnode\t1\ta\nnode\t1\tb\n",
    )?;
    text.push_str("dimension\tModel\nnode\t0\tAll\n")?;
    for model in 1..=MODELS {
        write!(text, "node\t1\tm{model}\n")?;
    }
    text.push_str("end\n")
}

/// The facts of a model: one in a, one fewer than its number in b, and one in either city. Their ids follow one another.
fn push_facts(text: &mut String, first: u64, model: u64) -> Result<(), AllocError> {
    write!(text, "insert\t{first}\ta\tm{model}\n")?;
    for further in 1..model {
        write!(
            text,
            "insert\t{}\tb\tm{model}\n",
            first.saturating_add(further)
        )?;
    }
    write!(
        text,
        "insert\t{}\tAll\tm{model}\n",
        first.saturating_add(model)
    )
}

/// The script of all facts, and how many they are.
fn push_script(text: &mut String) -> Result<u64, AllocError> {
    let mut next: u64 = 1;
    for model in 1..=MODELS {
        push_facts(text, next, model)?;
        next = next.saturating_add(model).saturating_add(1);
    }
    Ok(next.saturating_sub(1))
}

/// The replies to so many facts, and to counts of which that of a is the sum of the shares of one in 1 to 100.
fn push_replies(text: &mut String, facts: u64) -> Result<(), AllocError> {
    for _ in 0..facts {
        text.push_str("ok\t1\n")?;
    }
    text.push_str("count\t105.187377472\t105.187377557\twide\n")?;
    text.push_str("count\t5150.000000000\t5150.000000000\t5150\n")
}

/// Whether the counts are those of all shares.
fn counts_shares(alloc: Global) -> Result<bool, AllocError> {
    let mut input = String::new(alloc);
    push_schema(&mut input)?;
    let facts = push_script(&mut input)?;
    input.push_str("count\ta\tAll\ncount\tAll\tAll\n")?;
    let mut replies = String::new(alloc);
    push_replies(&mut replies, facts)?;
    let ran = run(alloc, &["try"], input.as_bytes(), &WHOLE)?;
    Ok(ran.is(Ending::Finished { refused: 0 }, &replies))
}

#[test]
fn shares_of_many_denominators(rt: HostRuntime) {
    assert!(rt; counts_shares(rt.alloc()) == Ok(true));
}
