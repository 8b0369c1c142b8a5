//! Possible worlds: their number, their mass and their totals, and where they are too many or weigh too much.
use crate::runs::{Case, Ending, REPAIRS, WHOLE, hold, run};
use std::alloc::{AllocError, Global};
use std::fmt::Write;

/// Two leaves that have equal shares.
const EVEN: &str =
    "cube\t1\npolicy\tuniform\ndimension\tPlace\nnode\t0\tAll\nnode\t1\ta\nnode\t1\tb\nend\n";

/// Two leaves that weigh as much as they have facts.
const COUNTED: &str =
    "cube\t1\npolicy\tcount\ndimension\tPlace\nnode\t0\tAll\nnode\t1\ta\nnode\t1\tb\nend\n";

const CASES: [Case; 2] = [
    (
        REPAIRS,
        "insert\t1\tAustin\tCamry\t100\ninsert\t2\tAustin\tCamry\t300\ninsert\t3\tDallas\tCamry\t50\ninsert\t4\tTX\tCamry\t600\nworlds\tAustin\tCamry\nworlds\tDallas\tCamry\nworlds\tHouston\tCamry\nworlds\tAll\tAll\nworlds\tAll\nworlds\tAustin\tWaco\n",
        "ok\t1\nok\t1\nok\t1\nok\t1\nworlds\t2\t3\t8\t2400\nworlds\t2\t3\t4\t750\nworlds\t2\t3\t0\t0\nworlds\t2\t3\t12\t3150\nerror\tfields\nerror\tnode\n",
        Ending::Finished { refused: 2 },
    ),
    // Without facts there is one world, in which nothing stands.
    (
        REPAIRS,
        "worlds\tAll\tAll\n",
        "worlds\t1\t1\t0\t0\n",
        Ending::Finished { refused: 0 },
    ),
];

#[test]
fn worlds_of_repairs(rt: HostRuntime) {
    assert!(rt; hold(rt.alloc(), &CASES));
}

/// Facts of which each is new and no other's allocation changes: how many at which node, one group after the other.
type Group = (u64, &'static str);

/// A schema without measures, facts, questions, and the replies to these.
type Asked = (
    &'static str,
    &'static [Group],
    &'static str,
    &'static str,
    u64,
);

/// The most worlds, one fact more than that, the largest mass, and one fact more than that.
const ASKED: [Asked; 4] = [
    (
        EVEN,
        &[(16, "All")],
        "worlds\tAll\nworlds\ta\n",
        "worlds\t65536\t65536\t1048576\nworlds\t65536\t65536\t524288\n",
        0,
    ),
    (
        EVEN,
        &[(17, "All")],
        "worlds\tAll\nworlds\ta\n",
        "error\tmany\nerror\tmany\n",
        2,
    ),
    (
        COUNTED,
        &[(1024, "a"), (6, "All")],
        "worlds\ta\nworlds\tb\n",
        "worlds\t1\t1152921504606846976\t1187509149745052385280\nworlds\t1\t1152921504606846976\t0\n",
        0,
    ),
    (
        COUNTED,
        &[(1024, "a"), (7, "All")],
        "worlds\ta\nworlds\tb\n",
        "error\twide\nerror\twide\n",
        2,
    ),
];

/// Appends the lines of so many facts at a node, and the replies to them; the ids follow the first.
fn push_facts(
    script: &mut String,
    replies: &mut String,
    first: u64,
    group: Group,
) -> Result<(), AllocError> {
    let (count, node) = group;
    for further in 0..count {
        write!(
            script,
            "insert\t{}\t{node}\n",
            first.saturating_add(further)
        )?;
        replies.push_str("ok\t1\n")?;
    }
    Ok(())
}

/// Whether the questions have these replies.
fn is_answered(alloc: Global, row: &Asked) -> Result<bool, AllocError> {
    let (schema, groups, questions, answers, refused) = *row;
    let mut input = String::from_str(alloc, schema)?;
    let mut replies = String::new(alloc);
    let mut first: u64 = 1;
    for group in groups {
        push_facts(&mut input, &mut replies, first, *group)?;
        first = first.saturating_add(group.0);
    }
    input.push_str(questions)?;
    replies.push_str(answers)?;
    let ran = run(alloc, &["try"], input.as_bytes(), &WHOLE)?;
    Ok(ran.is(Ending::Finished { refused }, &replies))
}

fn are_answered(alloc: Global, rows: &[Asked]) -> bool {
    for row in rows {
        if is_answered(alloc, row) != Ok(true) {
            return false;
        }
    }
    true
}

#[test]
fn most_worlds_and_largest_mass(rt: HostRuntime) {
    assert!(rt; are_answered(rt.alloc(), &ASKED));
}
