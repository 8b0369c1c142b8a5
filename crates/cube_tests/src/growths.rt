//! Dimensions that grow.
use crate::distributions::QUALITY;
use crate::fact_tables::SpreadRow;
use crate::limits::{large_dimensions, large_schema, push_nodes};
use crate::replies::{ROOT, UNEVEN};
use crate::runs::{ALL, Case, Ending, REPAIRS, WHOLE, hold, join_texts, run, run_kept};
use crate::store_faults::{Fault, end_so};
use crate::stored::{REPAIR_FACTS, REPAIR_SPREADS, holds_just, keeper_of};
use crate::weights::BY_REPAIRS;
use cube_base::Memory;
use fact_keeper::MemKeeper;
use std::alloc::{AllocError, Global};
use std::fmt::Write;

/// A chain of nodes of depths 0 to 8.
const CHAIN: &str =
    "cube\t1\npolicy\tuniform\ndimension\tD\nnode\t0\tn0\nnode\t1\tn1\nnode\t2\tn2\nnode\t3\tn3\nnode\t4\tn4\nnode\t5\tn5\nnode\t6\tn6\nnode\t7\tn7\nnode\t8\tn8\nend\n";

/// Growths of the repairs, with edits and questions between.
const CASES: [Case; 11] = [
    // Two districts of Houston, a repair in one of them, and a kind of sedans, by which the codes of three facts' cells shift.
    (
        REPAIRS,
        "insert\t1\tAustin\tCamry\t100\ninsert\t2\tAustin\tCamry\t300\ninsert\t3\tDallas\tCamry\t50\ninsert\t4\tTX\tCamry\t600\ngrow\tPlace\tHouston\tGalleria\ngrow\tPlace\tHouston\tMidtown\ninsert\t5\tHouston\tCamry\t70\nrows\t5\ngrow\tAuto\tSedan\tAccord\nrows\t4\n",
        "ok\t1\nok\t1\nok\t1\nok\t1\nok\t0\nok\t0\nok\t1\nrows\t2\t2\tGalleria\tCamry\t1\tMidtown\tCamry\t1\nok\t3\nrows\t3\t2\tAustin\tCamry\t2\tDallas\tCamry\t1\n",
        Ending::Finished { refused: 0 },
    ),
    // A fact in a city that gets a district is in that, and in one of two once there is another.
    (
        REPAIRS,
        "insert\t1\tHouston\tCamry\t5\ngrow\tPlace\tHouston\tGalleria\nrows\t1\ngrow\tPlace\tHouston\tMidtown\nrows\t1\nview\tstate\ncount\tMidtown\tAll\n",
        "ok\t1\nok\t0\nrows\t1\t1\tGalleria\tCamry\t1\nok\t1\nrows\t2\t2\tGalleria\tCamry\t1\tMidtown\tCamry\t1\nview\t1\tTX\tSedan\t1\t2\t2\t10\ncount\t0.500000000\t0.500000000\t1/2\n",
        Ending::Finished { refused: 0 },
    ),
    // The worked example grows by a city. As long as Waco has no repair, fact 4 is allocated as before. With a fifth
    // repair there it is allocated by the weights 2, 1 and 1 over 4. So Austin has 400 and 2 * 600 / 4, which is 700
    // for 2 + 2 / 4 repairs. Waco has 90 and 600 / 4 for 1 + 1 / 4. All five cost 1,140.
    (
        REPAIRS,
        "insert\t1\tAustin\tCamry\t100\ninsert\t2\tAustin\tCamry\t300\ninsert\t3\tDallas\tCamry\t50\ninsert\t4\tTX\tCamry\t600\ngrow\tPlace\tTX\tWaco\nrows\t4\ninsert\t5\tWaco\tCamry\t90\nrows\t4\nterms\tAustin\tCamry\ncount\tAustin\tCamry\nsum\tRepair\tAustin\tCamry\ncount\tWaco\tAll\navg\tRepair\tWaco\tAll\navg\tRepair\tTX\tAll\nview\tstate\n",
        "ok\t1\nok\t1\nok\t1\nok\t1\nok\t0\nrows\t3\t2\tAustin\tCamry\t2\tDallas\tCamry\t1\nok\t2\nrows\t4\t3\tAustin\tCamry\t2\tDallas\tCamry\t1\tWaco\tCamry\t1\nterms\t2\t1\t2\t400\t4\t2\t1200\ncount\t2.500000000\t2.500000000\t5/2\nsum\t700.000000000\t700.000000000\t700\ncount\t1.250000000\t1.250000000\t5/4\navg\t192.000000000\t192.000000000\t192\navg\t228.000000000\t228.000000000\t228\nview\t1\tTX\tSedan\t2\t1\t4\t540\t4\t4\t2400\n",
        Ending::Finished { refused: 0 },
    ),
    // A fact that is not precise any more weighs no cell, so that another is spread evenly: 2 * 4 worlds, each of weight 1.
    (
        REPAIRS,
        "insert\t1\tHouston\tCamry\t5\ninsert\t2\tTX\tCamry\t1\ngrow\tPlace\tHouston\tGalleria\nrows\t2\ngrow\tPlace\tHouston\tMidtown\nrows\t2\nworlds\tAll\tAll\nchange\t1\tMidtown\tCamry\t5\nrows\t2\n",
        "ok\t1\nok\t1\nok\t0\nrows\t1\t1\tGalleria\tCamry\t1\nok\t2\nrows\t4\t4\tAustin\tCamry\t1\tDallas\tCamry\t1\tGalleria\tCamry\t1\tMidtown\tCamry\t1\nworlds\t8\t8\t16\t48\nok\t2\nrows\t1\t1\tMidtown\tCamry\t1\n",
        Ending::Finished { refused: 0 },
    ),
    // By sums: the 3 of a fact in Austin weigh no cell once it lies in the north and the south, and the 1 of Dallas is all there is.
    (
        BY_REPAIRS,
        "insert\t1\tAustin\tCamry\t3\ninsert\t2\tDallas\tCamry\t1\ninsert\t3\tTX\tCamry\t8\nrows\t3\ngrow\tPlace\tAustin\tNorth\nrows\t3\ngrow\tPlace\tAustin\tSouth\nrows\t3\nsum\tRepair\tSouth\tCamry\n",
        "ok\t1\nok\t1\nok\t1\nrows\t4\t2\tAustin\tCamry\t3\tDallas\tCamry\t1\nok\t0\nrows\t4\t2\tNorth\tCamry\t3\tDallas\tCamry\t1\nok\t3\nrows\t1\t1\tDallas\tCamry\t1\nsum\t1.500000000\t1.500000000\t3/2\n",
        Ending::Finished { refused: 0 },
    ),
    // Outcomes of 80 and 20 in Austin, and of 50 and 50 in Texas, whose third is in Austin: 80 + 50 / 3 over 4 / 3. With two parts of Austin
    // each has a half of the former and a quarter of the latter, 40 + 50 / 4 over 3 / 4.
    (
        QUALITY,
        "insert\t1\tAustin\t80:20\ninsert\t2\tTX\t50:50\ngrow\tPlace\tTX\tWaco\nterms\tAustin\npool\tQuality\tAustin\npool\tQuality\tWaco\ngrow\tPlace\tAustin\tNorth\ngrow\tPlace\tAustin\tSouth\npool\tQuality\tNorth\n",
        "ok\t1\nok\t1\nok\t1\nterms\t2\t1\t1\t80\t20\t3\t1\t50\t50\npool\t0.725000000\t0.725000000\t29/40\t0.275000000\t0.275000000\t11/40\npool\t0.500000000\t0.500000000\t1/2\t0.500000000\t0.500000000\t1/2\nok\t0\nok\t2\npool\t0.700000000\t0.700000000\t7/10\t0.300000000\t0.300000000\t3/10\n",
        Ending::Finished { refused: 0 },
    ),
    // Each alone, then two at once, of which the first is reported: text and fields, fields and node, two wrong nodes,
    // node and name.
    (
        REPAIRS,
        "Grow\tPlace\tTX\tx\ngrow\tPlace\tTX\ngrow\tPlace\tTX\tx\ty\ngrow\tCity\tTX\tx\ngrow\tPlace\tWaco\tx\ngrow\tPlace\tCamry\tx\ngrow\tPlace\tTX\t\ngrow\tPlace\tTX\txxxxxxxxxxxxxxxxxxxxxxxxxxxxxxxxxxxxxxxxxxxxxxxxxxxxxxxxxxxxxxxxxxxxxxxxxxxxxxxxxxxxxxxxxxxxxxxxxxxxxxxxxxxxxxxxxxxxxxxxxxxxxxxxx\ngrow\tPlace\tTX\tLA\ngrow\tPlace\tTX\tTX\ngrow\tPlace\tTX\t\x01\ty\ngrow\tCity\tTX\ngrow\tCity\tWaco\tx\ngrow\tCity\tTX\t\ngrow\tPlace\tWaco\tLA\nterms\tx\tAll\ngrow\tPlace\tTX\tCamry\ngrow\tPlace\tTX\tCamry\n",
        "error\tcommand\nerror\tfields\nerror\tfields\nerror\tnode\nerror\tnode\nerror\tnode\nerror\tname\nerror\tname\nerror\tname\nerror\tname\nerror\ttext\nerror\tfields\nerror\tnode\nerror\tnode\nerror\tnode\nerror\tnode\nok\t0\nerror\tname\n",
        Ending::Finished { refused: 17 },
    ),
    // The name is judged before the depth. The last name is one of another dimension, and of a node that was refused.
    (
        CHAIN,
        "grow\tD\tn8\tx\ngrow\tD\tn8\tn0\ngrow\tD\tn7\tx\ngrow\tD\tn7\tx\ninsert\t1\tn7\nrows\t1\n",
        "error\tdepth\nerror\tname\nok\t0\nerror\tname\nok\t1\nrows\t2\t2\tn8\t1\tx\t1\n",
        Ending::Finished { refused: 3 },
    ),
    // A cut has the leaves that lie less deep, and a district is none any more once it has parts.
    (
        UNEVEN,
        "insert\t1\tDC\nview\tdeep\ngrow\tPlace\tDC\tMall\nview\tdeep\ngrow\tPlace\tDC\tZoo\nview\tdeep\nview\tstates\nview\tall\n",
        "ok\t1\nview\t1\tDC\t1\t1\t1\nok\t0\nview\t1\tMall\t1\t1\t1\nok\t1\nview\t2\tMall\t1\t2\t1\tZoo\t1\t2\t1\nview\t1\tDC\t1\t2\t2\nview\t1\tAll\t1\t2\t2\n",
        Ending::Finished { refused: 0 },
    ),
    // A root alone, which is a leaf.
    (
        ROOT,
        "insert\t1\tAll\ngrow\tPlace\tAll\ta\nrows\t1\ngrow\tPlace\tAll\tAll\ngrow\tPlace\tAll\tb\nrows\t1\n",
        "ok\t1\nok\t0\nrows\t1\t1\ta\t1\nerror\tname\nok\t1\nrows\t2\t2\ta\t1\tb\t1\n",
        Ending::Finished { refused: 1 },
    ),
    // A grown node is asked for, edited at, and grown under.
    (
        REPAIRS,
        "grow\tPlace\tTX\tWaco\ngrow\tPlace\tWaco\tWest\ninsert\t1\tWest\tF150\t7\nsum\tRepair\tTX\tAll\ninsert\t2\tWaco\tTruck\t1\nrows\t2\nwithdraw\t1\n",
        "ok\t0\nok\t0\nok\t1\nsum\t7.000000000\t7.000000000\t7\nok\t1\nrows\t1\t1\tWest\tF150\t1\nok\t1\n",
        Ending::Finished { refused: 0 },
    ),
];

#[test]
fn dimensions_that_grow(rt: HostRuntime) {
    assert!(rt; hold(rt.alloc(), &CASES));
}

/// Whether a fact of 2^20 cells lets no dimension grow under its nodes, also where there would be too many rows, and lets one grow beside.
fn keeps_regions(alloc: Global) -> Result<bool, AllocError> {
    let input = join_texts(
        alloc,
        &large_schema(alloc)?,
        "insert\t1\tL\tS\ngrow\tLeft\tL\tx\ninsert\t2\tL\tS\ngrow\tRight\tS\tx\ngrow\tRight\tR\tu\n",
    )?;
    let ran = run(alloc, &["try"], input.as_bytes(), &WHOLE)?;
    Ok(ran.is(
        Ending::Finished { refused: 2 },
        "ok\t1\nerror\tregion\nok\t1\nerror\tregion\nok\t2\n",
    ))
}

/// Whether a dimension does not grow where the facts would have more than 2^21 rows, and grows once two of them are
/// withdrawn.
fn keeps_rows(alloc: Global) -> Result<bool, AllocError> {
    let mut input = large_schema(alloc)?;
    let mut replies = String::new(alloc);
    for id in 1..=2048 {
        write!(input, "insert\t{id}\tL\ts1\n")?;
        replies.push_str("ok\t1\n")?;
    }
    input.push_str("grow\tLeft\tL\tx\nwithdraw\t1\nwithdraw\t2\ngrow\tLeft\tL\tx\n")?;
    replies.push_str("error\trows\nok\t0\nok\t0\nok\t2046\n")?;
    let ran = run(alloc, &["try"], input.as_bytes(), &WHOLE)?;
    Ok(ran.is(Ending::Finished { refused: 1 }, &replies))
}

/// Dimensions with a root and one node less than so many under it, after the dimensions of a schema, and its end.
fn push_dimensions(schema: &mut String, counts: &[u32]) -> Result<(), AllocError> {
    for (dim, nodes) in counts.iter().enumerate() {
        write!(schema, "dimension\td{dim}\nnode\t0\tAll\n")?;
        push_nodes(schema, 1, 'n', nodes.saturating_sub(1))?;
    }
    schema.push_str("end\n")?;
    Ok(())
}

/// Whether a dimension grows to 65,536 nodes and no further, and no other grows then, since of 550^4 * 769 * 65,536 regions there are
/// almost 2^62. A name is judged before a depth, that before the limit on nodes, and that before the limit on their product.
fn keeps_nodes(alloc: Global) -> Result<bool, AllocError> {
    let Some(open) = CHAIN.get(..CHAIN.len().saturating_sub(4)) else {
        return Ok(false);
    };
    let mut input = String::from_str(alloc, open)?;
    push_nodes(&mut input, 1, 'm', 65_526)?;
    push_dimensions(&mut input, &[550, 550, 550, 550, 769])?;
    input.push_str(
        "grow\tD\tn0\tx\ngrow\tD\tn8\tx\ngrow\tD\tn8\ty\ngrow\tD\tn0\ty\ngrow\td0\tAll\tx\nterms\tx\tAll\tAll\tAll\tAll\tAll\n",
    )?;
    let ran = run(alloc, &["try"], input.as_bytes(), &WHOLE)?;
    Ok(ran.is(
        Ending::Finished { refused: 4 },
        "ok\t0\nerror\tname\nerror\tdepth\nerror\tlimit\nerror\tnodes\nterms\t0\n",
    ))
}

/// Whether the product of nodes is judged before the facts, of which each would have too many cells, and both too many rows: two of
/// 2^20 cells, where of 1,025 * 1,027 * 1,446^3 * 1,448 regions there are almost 2^62.
fn keeps_products(alloc: Global) -> Result<bool, AllocError> {
    let mut input = large_dimensions(alloc)?;
    push_dimensions(&mut input, &[1446, 1446, 1446, 1448])?;
    input.push_str(
        "insert\t1\tL\tS\tn1\tn1\tn1\tn1\ninsert\t2\tL\tS\tn1\tn1\tn1\tn2\ngrow\tLeft\tL\tx\n",
    )?;
    let ran = run(alloc, &["try"], input.as_bytes(), &WHOLE)?;
    Ok(ran.is(
        Ending::Finished { refused: 1 },
        "ok\t1\nok\t1\nerror\tnodes\n",
    ))
}

#[test]
fn growths_up_to_the_limits(rt: HostRuntime) {
    assert!(rt; keeps_regions(rt.alloc()) == Ok(true));
    assert!(rt; keeps_rows(rt.alloc()) == Ok(true));
    assert!(rt; keeps_nodes(rt.alloc()) == Ok(true));
    assert!(rt; keeps_products(rt.alloc()) == Ok(true));
}

/// How the repairs lie with a kind of sedans more, by which the codes shift.
const SHIFTED: [SpreadRow; 4] = [
    (1, 1, &[(0, 1)]),
    (2, 1, &[(0, 1)]),
    (3, 1, &[(5, 1)]),
    (4, 3, &[(0, 2), (5, 1)]),
];

/// A growth and its reply; the text of the schema that is kept then, how many facts' rows the batch has, and how the facts lie then; what
/// is asked when the store is opened again, and the answer.
type Kept = (
    (&'static str, &'static str),
    &'static str,
    usize,
    &'static [SpreadRow],
    (&'static str, &'static str),
);

const KEPT: [Kept; 4] = [
    // A place after those of Texas, before those of California, which have no facts.
    (
        ("grow\tPlace\tTX\tWaco\n", "ok\t0\n"),
        "cube\t2\npolicy\tcount\nnumber\tRepair\ndimension\tPlace\nnode\t0\tAll\t0\nnode\t1\tTX\t1\nnode\t2\tAustin\t2\nnode\t2\tDallas\t3\nnode\t2\tHouston\t4\nnode\t2\tWaco\t8\nnode\t1\tCA\t5\nnode\t2\tLA\t6\nnode\t2\tSF\t7\ndimension\tAuto\nnode\t0\tAll\t0\nnode\t1\tSedan\t1\nnode\t2\tCamry\t2\nnode\t2\tCivic\t3\nnode\t1\tTruck\t4\nnode\t2\tF150\t5\nnode\t2\tSierra\t6\nview\tstate\t1\t1\nend\n",
        0,
        &REPAIR_SPREADS,
        (
            "rows\t4\ninsert\t5\tWaco\tCamry\t1\nrows\t4\n",
            "rows\t3\t2\tAustin\tCamry\t2\tDallas\tCamry\t1\nok\t2\nrows\t4\t3\tAustin\tCamry\t2\tDallas\tCamry\t1\tWaco\tCamry\t1\n",
        ),
    ),
    (
        ("grow\tAuto\tSedan\tAccord\n", "ok\t2\n"),
        "cube\t2\npolicy\tcount\nnumber\tRepair\ndimension\tPlace\nnode\t0\tAll\t0\nnode\t1\tTX\t1\nnode\t2\tAustin\t2\nnode\t2\tDallas\t3\nnode\t2\tHouston\t4\nnode\t1\tCA\t5\nnode\t2\tLA\t6\nnode\t2\tSF\t7\ndimension\tAuto\nnode\t0\tAll\t0\nnode\t1\tSedan\t1\nnode\t2\tCamry\t2\nnode\t2\tCivic\t3\nnode\t2\tAccord\t7\nnode\t1\tTruck\t4\nnode\t2\tF150\t5\nnode\t2\tSierra\t6\nview\tstate\t1\t1\nend\n",
        2,
        &SHIFTED,
        (
            "rows\t3\ncount\tTX\tAccord\n",
            "rows\t1\t1\tDallas\tCamry\t1\ncount\t0.000000000\t0.000000000\t0\n",
        ),
    ),
    // The last leaf keeps the numbers of the nodes as they are written.
    (
        ("grow\tPlace\tCA\tSJ\n", "ok\t0\n"),
        "cube\t1\npolicy\tcount\nnumber\tRepair\ndimension\tPlace\nnode\t0\tAll\nnode\t1\tTX\nnode\t2\tAustin\nnode\t2\tDallas\nnode\t2\tHouston\nnode\t1\tCA\nnode\t2\tLA\nnode\t2\tSF\nnode\t2\tSJ\ndimension\tAuto\nnode\t0\tAll\nnode\t1\tSedan\nnode\t2\tCamry\nnode\t2\tCivic\nnode\t1\tTruck\nnode\t2\tF150\nnode\t2\tSierra\nview\tstate\t1\t1\nend\n",
        0,
        &REPAIR_SPREADS,
        (
            "insert\t5\tCA\tCamry\t1\nrows\t5\n",
            "ok\t1\nrows\t3\t3\tLA\tCamry\t1\tSF\tCamry\t1\tSJ\tCamry\t1\n",
        ),
    ),
    // The fact in Dallas is in the part of it, and in one of two once there is another; then Austin alone has precise facts.
    (
        ("grow\tPlace\tDallas\tNorth\n", "ok\t0\n"),
        "cube\t2\npolicy\tcount\nnumber\tRepair\ndimension\tPlace\nnode\t0\tAll\t0\nnode\t1\tTX\t1\nnode\t2\tAustin\t2\nnode\t2\tDallas\t3\nnode\t3\tNorth\t8\nnode\t2\tHouston\t4\nnode\t1\tCA\t5\nnode\t2\tLA\t6\nnode\t2\tSF\t7\ndimension\tAuto\nnode\t0\tAll\t0\nnode\t1\tSedan\t1\nnode\t2\tCamry\t2\nnode\t2\tCivic\t3\nnode\t1\tTruck\t4\nnode\t2\tF150\t5\nnode\t2\tSierra\t6\nview\tstate\t1\t1\nend\n",
        0,
        &REPAIR_SPREADS,
        (
            "rows\t3\ngrow\tPlace\tDallas\tSouth\nrows\t3\nrows\t4\n",
            "rows\t1\t1\tNorth\tCamry\t1\nok\t2\nrows\t2\t2\tNorth\tCamry\t1\tSouth\tCamry\t1\nrows\t2\t1\tAustin\tCamry\t2\n",
        ),
    ),
];

/// Whether one batch was kept: the text of a schema, and the rows of so many facts.
fn has_batch(keeper: &MemKeeper, rows: usize) -> bool {
    match keeper.journal() {
        [batch] => {
            batch.schema.is_some()
                && batch.gone.as_slice().is_empty()
                && batch.facts.as_slice().is_empty()
                && batch.rows.as_slice().len() == rows
        }
        _ => false,
    }
}

/// Whether a line is done over a store, or some, and nothing is refused.
fn is_said(
    alloc: Global,
    keeper: &mut MemKeeper,
    word: &str,
    said: (&str, &str),
) -> Result<bool, Memory> {
    let (lines, replies) = said;
    let ran = run_kept(alloc, &[word, "s"], lines.as_bytes(), &WHOLE, keeper)?;
    Ok(ran.is(Ending::Finished { refused: 0 }, replies))
}

/// Whether a growth of a store is answered and kept so, the store is sound then, and is asked.
fn is_kept_in(alloc: Global, keeper: &mut MemKeeper, row: &Kept) -> Result<bool, Memory> {
    let (growth, text, rows, spreads, asked) = *row;
    Ok(
        is_said(alloc, keeper, "run", growth)?
            && has_batch(keeper, rows)
            && keeper.content().schema.as_slice() == text.as_bytes()
            && holds_just(keeper.content(), &REPAIR_FACTS, spreads)
            && is_said(alloc, keeper, "check", ("", "sound\t4\t5\n"))?
            && is_said(alloc, keeper, "run", asked)?,
    )
}

/// Whether a growth of the repairs in a store is answered and kept so, the store is sound then, and is asked.
fn is_kept(alloc: Global, row: &Kept) -> Result<bool, Memory> {
    let mut keeper = keeper_of(alloc, REPAIRS, &REPAIR_FACTS, &REPAIR_SPREADS, &[])?;
    let kept = is_kept_in(alloc, &mut keeper, row);
    drop(keeper);
    kept
}

fn are_kept(alloc: Global, rows: &[Kept]) -> bool {
    for row in rows {
        if is_kept(alloc, row) != Ok(true) {
            return false;
        }
    }
    true
}

#[test]
fn growths_of_a_store(rt: HostRuntime) {
    assert!(rt; are_kept(rt.alloc(), &KEPT));
}

/// A fact in a city, a district of it and another, and how the fact lies.
const SCRIPT: &str =
    "insert\t1\tHouston\tCamry\t5\ngrow\tPlace\tHouston\tGalleria\ngrow\tPlace\tHouston\tMidtown\nrows\t1\n";

/// The load is the first call, and each of the first three lines commits. The reply to one is written before the next commits.
const FAULTS: [Fault; 8] = [
    (1, ALL, 0, Ending::KeepFault { done: 0 }, "", 0, &[]),
    (2, ALL, 0, Ending::KeepFault { done: 0 }, "", 0, &[]),
    (3, ALL, 0, Ending::KeepFault { done: 1 }, "ok\t1\n", 1, &[1]),
    (
        4,
        ALL,
        0,
        Ending::KeepFault { done: 2 },
        "ok\t1\nok\t0\n",
        2,
        &[1],
    ),
    (0, ALL, 1, Ending::WriteFault { done: 1 }, "", 1, &[1]),
    (
        0,
        ALL,
        2,
        Ending::WriteFault { done: 2 },
        "ok\t1\n",
        2,
        &[1],
    ),
    (
        0,
        ALL,
        3,
        Ending::WriteFault { done: 3 },
        "ok\t1\nok\t0\n",
        3,
        &[1],
    ),
    (
        0,
        ALL,
        0,
        Ending::Finished { refused: 0 },
        "ok\t1\nok\t0\nok\t1\nrows\t2\t2\tGalleria\tCamry\t1\tMidtown\tCamry\t1\n",
        3,
        &[1],
    ),
];

#[test]
fn faults_at_growths(rt: HostRuntime) {
    assert!(rt; end_so(rt.alloc(), "run", REPAIRS, SCRIPT, &FAULTS));
}
