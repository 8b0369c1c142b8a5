//! Feeds: what a leader writes, what a follower makes of one, and where one stops it.
use crate::fact_tables::{FactRow, SpreadRow};
use crate::runs::{Ending, REPAIRS, WHOLE, join_texts, run_kept};
use crate::stored::{
    CITIES, Content, REPAIR_FACTS, REPAIR_SPREADS, holds_just, keeper_of, run_stored, without_facts,
};
use cube_base::{Code, Memory};
use fact_keeper::MemKeeper;
use std::alloc::{AllocError, Global};

/// Where a feed of the repairs begins, and its lines after the schema at three facts.
const HEAD: &str = "feed\t1\n";

const BASE: &str =
    "fact\t1\tAustin\tCamry\t100\nfact\t2\tAustin\tCamry\t300\nfact\t3\tDallas\tCamry\t50\nbased\n";

/// The batch of a fourth fact, somewhere in Texas.
const BATCH: &str =
    "batch\t1\tinsert\t4\tTX\tCamry\t600\nrows\t4\t3\t2\nrow\tAustin\tCamry\t2\nrow\tDallas\tCamry\t1\ndone\n";

/// The three facts, and how they are spread.
const THREE: [FactRow; 3] = [
    (1, &[2, 2], &[100]),
    (2, &[2, 2], &[300]),
    (3, &[3, 2], &[50]),
];

const THREE_SPREADS: [SpreadRow; 3] = [(1, 1, &[(0, 1)]), (2, 1, &[(0, 1)]), (3, 1, &[(4, 1)])];

/// Texts, one after the other.
fn text_of(alloc: Global, texts: &[&str]) -> Result<String, AllocError> {
    let mut text = String::new(alloc);
    for part in texts {
        text.push_str(part)?;
    }
    Ok(text)
}

/// Lines over the three facts, how many are refused, and what a leader writes after the base.
const LED: [(&str, u64, &str); 4] = [
    ("", 0, ""),
    ("insert\t4\tTX\tCamry\t600\n", 0, BATCH),
    // What is refused, asked or skipped is not in it.
    (
        "# repairs\ninsert\t3\tTX\tCamry\t600\ncount\tTX\tAll\n\nwithdraw\t9\ninsert\t4\tTX\tCamry\t600\r\nrows\t9",
        3,
        BATCH,
    ),
    // A change to an equal fact refreshes none. By the growth the code of the cell of fact 3 shifts.
    (
        "withdraw\t1\nchange\t2\tAustin\tCamry\t300\ngrow\tAuto\tSedan\tAccord\ninsert\t1\tTX\tAccord\t-5\n",
        0,
        "batch\t1\twithdraw\t1\ndone\nbatch\t2\tchange\t2\tAustin\tCamry\t300\ndone\nbatch\t3\tgrow\tAuto\tSedan\tAccord\nrows\t3\t1\t1\nrow\tDallas\tCamry\t1\ndone\nbatch\t4\tinsert\t1\tTX\tAccord\t-5\nrows\t1\t3\t3\nrow\tAustin\tAccord\t1\nrow\tDallas\tAccord\t1\nrow\tHouston\tAccord\t1\ndone\n",
    ),
];

/// Whether a leader over the three facts writes so.
fn leads_so(alloc: Global, row: &(&str, u64, &str)) -> Result<bool, Memory> {
    let (lines, refused, batches) = *row;
    let feed = text_of(alloc, &[HEAD, REPAIRS, BASE, batches])?;
    let content = (REPAIRS, &THREE[..], &THREE_SPREADS[..]);
    let kept = run_stored(alloc, "lead", content, 0, lines.as_bytes(), &WHOLE)?;
    let is_right = kept.ran.is(Ending::Finished { refused }, feed.as_str()) && kept.ran.left == 0;
    drop(kept);
    Ok(is_right)
}

fn lead_so(alloc: Global, rows: &[(&str, u64, &str)]) -> bool {
    rows.iter().all(|row| leads_so(alloc, row) == Ok(true))
}

#[test]
fn feeds_of_leaders(rt: HostRuntime) {
    assert!(rt; lead_so(rt.alloc(), &LED));
}

/// What a leader refuses: the schema, facts and rows of its store, and how it ends.
const NOT_LED: [(Content<'static>, Ending); 3] = [
    (("", &[], &[]), Ending::NoCube),
    (("x\n", &[], &[]), Ending::BadStore),
    ((REPAIRS, &REPAIR_FACTS, &[]), Ending::BadStore),
];

/// Whether a leader over a content ends so, and neither reads nor writes.
fn leads_none(alloc: Global, row: &(Content<'static>, Ending)) -> Result<bool, Memory> {
    let (content, end) = *row;
    let kept = run_stored(alloc, "lead", content, 0, b"x\n", &WHOLE)?;
    let is_right = kept.ran.is(end, "") && kept.ran.left == 2 && kept.keeper.journal().is_empty();
    drop(kept);
    Ok(is_right)
}

fn lead_none(alloc: Global, rows: &[(Content<'static>, Ending)]) -> bool {
    for row in rows {
        if leads_none(alloc, row) != Ok(true) {
            return false;
        }
    }
    true
}

#[test]
fn stores_without_a_leader(rt: HostRuntime) {
    assert!(rt; lead_none(rt.alloc(), &NOT_LED));
}

/// Lines of a feed, how the run of a follower ends, what it writes, and how many batches it keeps.
type Feed = (&'static str, Ending, &'static str, usize);

const DONE: Ending = Ending::Finished { refused: 0 };

/// Whole feeds.
const WHOLE_FEEDS: [Feed; 14] = [
    (
        "",
        Ending::BadFeed {
            line: 1,
            code: Code::Cut,
        },
        "",
        0,
    ),
    (
        "feed\t2\n",
        Ending::BadFeed {
            line: 1,
            code: Code::Number,
        },
        "",
        0,
    ),
    (
        "feed\t01\n",
        Ending::BadFeed {
            line: 1,
            code: Code::Number,
        },
        "",
        0,
    ),
    (
        "feed\t1\r\n",
        Ending::BadFeed {
            line: 1,
            code: Code::Text,
        },
        "",
        0,
    ),
    (
        "feed\n",
        Ending::BadFeed {
            line: 1,
            code: Code::Fields,
        },
        "",
        0,
    ),
    (
        "feed\t1\t1\n",
        Ending::BadFeed {
            line: 1,
            code: Code::Fields,
        },
        "",
        0,
    ),
    (
        "# a feed\nfeed\t1\n",
        Ending::BadFeed {
            line: 1,
            code: Code::Order,
        },
        "",
        0,
    ),
    (
        "\nfeed\t1\n",
        Ending::BadFeed {
            line: 1,
            code: Code::Order,
        },
        "",
        0,
    ),
    (
        "batch\t1\tinsert\n",
        Ending::BadFeed {
            line: 1,
            code: Code::Order,
        },
        "",
        0,
    ),
    (
        "feed\t1\n",
        Ending::BadFeed {
            line: 2,
            code: Code::Cut,
        },
        "",
        0,
    ),
    (
        "feed\t1\ncube\t1\npolicy\tcount\n",
        Ending::BadFeed {
            line: 4,
            code: Code::Cut,
        },
        "",
        0,
    ),
    (
        "feed\t1\ncube\t1\njunk\nend\n",
        Ending::BadFeed {
            line: 3,
            code: Code::Order,
        },
        "",
        0,
    ),
    // The schema's lines may end with CR, and others stand between them.
    (
        "feed\t1\n# two cities\r\ncube\t1\r\npolicy\tcount\r\n\nnumber\tHours\r\ndimension\tPlace\r\nnode\t0\tAll\r\nnode\t1\tTX\r\nend\r\nfact\t1\tTX\t5\nbased\nbatch\t1\twithdraw\t1\ndone\n",
        DONE,
        "applied\t1\n",
        2,
    ),
    // After its end none does.
    (
        "feed\t1\ncube\t1\npolicy\tcount\nnumber\tHours\ndimension\tPlace\nnode\t0\tAll\nnode\t1\tTX\nend\n# facts\nbased\n",
        Ending::BadFeed {
            line: 9,
            code: Code::Order,
        },
        "",
        0,
    ),
];

/// What stands after the schema of the repairs, from line 24 on.
const BEHIND_SCHEMA: [Feed; 17] = [
    ("based\n", DONE, "", 1),
    ("fact\t1\tAustin\tCamry\t100\nbased", DONE, "", 1),
    (
        "",
        Ending::BadFeed {
            line: 24,
            code: Code::Cut,
        },
        "",
        0,
    ),
    (
        "fact\t1\tAustin\tCamry\t100\n",
        Ending::BadFeed {
            line: 25,
            code: Code::Cut,
        },
        "",
        0,
    ),
    (
        "\nbased\n",
        Ending::BadFeed {
            line: 24,
            code: Code::Order,
        },
        "",
        0,
    ),
    (
        "done\n",
        Ending::BadFeed {
            line: 24,
            code: Code::Order,
        },
        "",
        0,
    ),
    (
        "based\tx\n",
        Ending::BadFeed {
            line: 24,
            code: Code::Fields,
        },
        "",
        0,
    ),
    (
        "fact\t1\tAustin\tCamry\n",
        Ending::BadFeed {
            line: 24,
            code: Code::Fields,
        },
        "",
        0,
    ),
    (
        "fact\t0\tAustin\tCamry\t100\n",
        Ending::BadFeed {
            line: 24,
            code: Code::Id,
        },
        "",
        0,
    ),
    (
        "fact\t1\tWaco\tCamry\t100\n",
        Ending::BadFeed {
            line: 24,
            code: Code::Node,
        },
        "",
        0,
    ),
    (
        "fact\t1\tAustin\tCamry\t01\n",
        Ending::BadFeed {
            line: 24,
            code: Code::Value,
        },
        "",
        0,
    ),
    (
        "fact\t1\tAustin\tCamry\t100\r\n",
        Ending::BadFeed {
            line: 24,
            code: Code::Text,
        },
        "",
        0,
    ),
    (
        "fact\t2\tAustin\tCamry\t300\nfact\t1\tAustin\tCamry\t100\nbased\n",
        Ending::BadFeed {
            line: 25,
            code: Code::Exists,
        },
        "",
        0,
    ),
    (
        "fact\t2\tAustin\tCamry\t300\nfact\t2\tAustin\tCamry\t300\nbased\n",
        Ending::BadFeed {
            line: 25,
            code: Code::Exists,
        },
        "",
        0,
    ),
    (
        "fact\t1\tAustin\tCamry\t100\nfact\t2\tAustin\tCamry\t300\nfact\t3\tDallas\tCamry\t50\nbatch\t1\n",
        Ending::BadFeed {
            line: 27,
            code: Code::Order,
        },
        "",
        0,
    ),
    (
        "fact\t1\tAustin\tCamry\t100\nfact\t2\tAustin\tCamry\t300\nfact\t3\tDallas\tCamry\t50\nbased\nfact\t4\tDallas\tCamry\t50\n",
        Ending::BadFeed {
            line: 28,
            code: Code::Order,
        },
        "",
        1,
    ),
    (
        "based\nbased\n",
        Ending::BadFeed {
            line: 25,
            code: Code::Order,
        },
        "",
        1,
    ),
];

/// What stands after the base of three facts, from line 28 on.
const BEHIND_BASE: [Feed; 26] = [
    ("", DONE, "", 1),
    (BATCH, DONE, "applied\t1\n", 2),
    (
        "batch\t1\tinsert\t4\tTX\tCamry\t600\nrows\t4\t3\t2\nrow\tAustin\tCamry\t2\nrow\tDallas\tCamry\t1\ndone",
        DONE,
        "applied\t1\n",
        2,
    ),
    // A batch out of turn, another weight, and a batch that is cut.
    (
        "batch\t2\tinsert\t4\tTX\tCamry\t600\nrows\t4\t3\t2\nrow\tAustin\tCamry\t2\nrow\tDallas\tCamry\t1\ndone\n",
        Ending::Order { want: 1, got: 2 },
        "",
        1,
    ),
    (
        "batch\t1\tinsert\t4\tTX\tCamry\t600\nrows\t4\t3\t2\nrow\tAustin\tCamry\t3\nrow\tDallas\tCamry\t1\ndone\n",
        Ending::Differs {
            number: 1,
            line: 30,
        },
        "",
        1,
    ),
    (
        "batch\t1\tinsert\t4\tTX\tCamry\t600\nrows\t4\t3\t2\nrow\tAustin\tCamry\t2\nrow\tDallas\tCamry\t1\n",
        Ending::BadFeed {
            line: 32,
            code: Code::Cut,
        },
        "",
        1,
    ),
    // A row too many, the next batch in the place of `done`, and lines that would be skipped elsewhere.
    (
        "batch\t1\tinsert\t4\tTX\tCamry\t600\nrows\t4\t3\t2\nrow\tAustin\tCamry\t2\nrow\tDallas\tCamry\t1\nrow\tHouston\tCamry\t1\ndone\n",
        Ending::Differs {
            number: 1,
            line: 32,
        },
        "",
        1,
    ),
    (
        "batch\t1\tinsert\t4\tTX\tCamry\t600\nrows\t4\t3\t2\nrow\tAustin\tCamry\t2\nrow\tDallas\tCamry\t1\nbatch\t2\twithdraw\t4\ndone\n",
        Ending::Differs {
            number: 1,
            line: 32,
        },
        "",
        1,
    ),
    (
        "batch\t1\tinsert\t4\tTX\tCamry\t600\nrows\t4\t3\t2\n# weights\nrow\tAustin\tCamry\t2\nrow\tDallas\tCamry\t1\ndone\n",
        Ending::Differs {
            number: 1,
            line: 30,
        },
        "",
        1,
    ),
    (
        "batch\t1\tinsert\t4\tTX\tCamry\t600\nrows\t4\t3\t2\r\n",
        Ending::BadFeed {
            line: 29,
            code: Code::Text,
        },
        "",
        1,
    ),
    (
        "batch\t1\tinsert\t4\tTX\tCamry\t600\r\n",
        Ending::BadFeed {
            line: 28,
            code: Code::Text,
        },
        "",
        1,
    ),
    (
        "\n",
        Ending::BadFeed {
            line: 28,
            code: Code::Order,
        },
        "",
        1,
    ),
    (
        "# batches\n",
        Ending::BadFeed {
            line: 28,
            code: Code::Order,
        },
        "",
        1,
    ),
    (
        "done\n",
        Ending::BadFeed {
            line: 28,
            code: Code::Order,
        },
        "",
        1,
    ),
    (
        "batch\t1\n",
        Ending::BadFeed {
            line: 28,
            code: Code::Fields,
        },
        "",
        1,
    ),
    (
        "batch\t01\tinsert\n",
        Ending::BadFeed {
            line: 28,
            code: Code::Number,
        },
        "",
        1,
    ),
    (
        "batch\t18446744073709551616\tinsert\n",
        Ending::BadFeed {
            line: 28,
            code: Code::Number,
        },
        "",
        1,
    ),
    (
        "batch\t18446744073709551615\tinsert\n",
        Ending::Order {
            want: 1,
            got: 18_446_744_073_709_551_615,
        },
        "",
        1,
    ),
    (
        "batch\t0\tinsert\n",
        Ending::Order { want: 1, got: 0 },
        "",
        1,
    ),
    (
        "batch\t1\t#x\n",
        Ending::BadFeed {
            line: 28,
            code: Code::Command,
        },
        "",
        1,
    ),
    (
        "batch\t1\t\n",
        Ending::BadFeed {
            line: 28,
            code: Code::Command,
        },
        "",
        1,
    ),
    (
        "batch\t1\tcount\tTX\tAll\n",
        Ending::BadFeed {
            line: 28,
            code: Code::Command,
        },
        "",
        1,
    ),
    (
        "batch\t1\tinsert\t3\tTX\tCamry\t600\n",
        Ending::BadFeed {
            line: 28,
            code: Code::Exists,
        },
        "",
        1,
    ),
    // What follows a batch that is applied leaves it.
    (
        "batch\t1\twithdraw\t3\ndone\nbatch\t1\twithdraw\t2\ndone\n",
        Ending::Order { want: 2, got: 1 },
        "applied\t1\n",
        2,
    ),
    (
        "batch\t1\twithdraw\t3\ndone\nbatch\t2\tchange\t2\tAustin\tCamry\t300\ndone\n",
        DONE,
        "applied\t1\napplied\t2\n",
        3,
    ),
    (
        "batch\t1\tgrow\tAuto\tSedan\tAccord\nrows\t3\t1\t1\nrow\tDallas\tCamry\t1\ndone\n",
        DONE,
        "applied\t1\n",
        2,
    ),
];

/// Whether a follower of a feed over a content goes so.
fn follows_feed(
    alloc: Global,
    content: Content<'_>,
    feed: &str,
    end: Ending,
    written: &str,
    batches: usize,
) -> Result<bool, Memory> {
    let kept = run_stored(alloc, "follow", content, 0, feed.as_bytes(), &WHOLE)?;
    let is_right = kept.ran.is(end, written) && kept.keeper.journal().len() == batches;
    drop(kept);
    Ok(is_right)
}

/// Whether so it goes over a store in which there is nothing, of what stands after a text.
fn follows(alloc: Global, before: &str, row: &Feed) -> Result<bool, Memory> {
    let (tail, end, written, batches) = *row;
    let feed = join_texts(alloc, before, tail)?;
    follows_feed(
        alloc,
        without_facts(""),
        feed.as_str(),
        end,
        written,
        batches,
    )
}

fn follow_each(alloc: Global, before: &str, rows: &[Feed]) -> bool {
    rows.iter()
        .all(|row| follows(alloc, before, row) == Ok(true))
}

/// The same after texts.
fn follow_behind(alloc: Global, texts: &[&str], rows: &[Feed]) -> Result<bool, Memory> {
    let before = text_of(alloc, texts)?;
    Ok(follow_each(alloc, before.as_str(), rows))
}

#[test]
fn whole_feeds(rt: HostRuntime) {
    assert!(rt; follow_each(rt.alloc(), "", &WHOLE_FEEDS));
}

#[test]
fn feeds_up_to_their_base(rt: HostRuntime) {
    assert!(rt; follow_behind(rt.alloc(), &[HEAD, REPAIRS], &BEHIND_SCHEMA) == Ok(true));
}

#[test]
fn batches_of_feeds(rt: HostRuntime) {
    assert!(rt; follow_behind(rt.alloc(), &[HEAD, REPAIRS, BASE], &BEHIND_BASE) == Ok(true));
}

/// The repairs' schema by hand.
const REMARKED: &str =
    "# repairs\ncube\t1\npolicy\tcount\nnumber\tRepair\ndimension\tPlace\nnode\t0\tAll\nnode\t1\tTX\nnode\t2\tAustin\nnode\t2\tDallas\nnode\t2\tHouston\nnode\t1\tCA\nnode\t2\tLA\nnode\t2\tSF\ndimension\tAuto\nnode\t0\tAll\nnode\t1\tSedan\nnode\t2\tCamry\nnode\t2\tCivic\nnode\t1\tTruck\nnode\t2\tF150\nnode\t2\tSierra\nview\tstate\t1\t1\nend\n";

/// The three facts with another value, and with another city.
const OTHER_VALUE: [FactRow; 3] = [
    (1, &[2, 2], &[100]),
    (2, &[2, 2], &[301]),
    (3, &[3, 2], &[50]),
];

const OTHER_CITY: [FactRow; 3] = [
    (1, &[3, 2], &[100]),
    (2, &[2, 2], &[300]),
    (3, &[3, 2], &[50]),
];

const OTHER_CITY_SPREADS: [SpreadRow; 3] = [
    (1, 1, &[(4, 1)]),
    (2, 1, &[(0, 1)]),
    (3, 1, &[(4, 1)]),
];

/// The schema, facts and rows of a follower, how its run over the feed of the fourth fact ends, what it writes, and how many batches it
/// keeps.
type Follower = (Content<'static>, Ending, &'static str, usize);

const FOLLOWERS: [Follower; 11] = [
    (("", &[], &[]), DONE, "applied\t1\n", 2),
    ((REPAIRS, &THREE, &THREE_SPREADS), DONE, "applied\t1\n", 1),
    ((REMARKED, &THREE, &THREE_SPREADS), DONE, "applied\t1\n", 1),
    ((CITIES, &[], &[]), Ending::Base { place: None }, "", 0),
    ((REPAIRS, &[], &[]), Ending::Base { place: Some(0) }, "", 0),
    (
        (REPAIRS, &OTHER_CITY, &OTHER_CITY_SPREADS),
        Ending::Base { place: Some(0) },
        "",
        0,
    ),
    (
        (REPAIRS, &OTHER_VALUE, &THREE_SPREADS),
        Ending::Base { place: Some(1) },
        "",
        0,
    ),
    // One fact more than the leader had.
    (
        (REPAIRS, &REPAIR_FACTS, &REPAIR_SPREADS),
        Ending::Base { place: Some(3) },
        "",
        0,
    ),
    (("x\n", &[], &[]), Ending::BadStore, "", 0),
    (("", &THREE, &THREE_SPREADS), Ending::BadStore, "", 0),
    ((REPAIRS, &THREE, &[]), Ending::BadStore, "", 0),
];

/// Whether a follower goes so.
fn follows_over(alloc: Global, row: &Follower) -> Result<bool, Memory> {
    let (content, end, written, batches) = *row;
    let feed = text_of(alloc, &[HEAD, REPAIRS, BASE, BATCH])?;
    follows_feed(alloc, content, feed.as_str(), end, written, batches)
}

fn follow_over(alloc: Global, rows: &[Follower]) -> bool {
    for row in rows {
        if follows_over(alloc, row) != Ok(true) {
            return false;
        }
    }
    true
}

#[test]
fn followers_over_other_stores(rt: HostRuntime) {
    assert!(rt; follow_over(rt.alloc(), &FOLLOWERS));
}

/// Whether a run of a word over an input ends so, and writes this.
fn goes_so(
    alloc: Global,
    keeper: &mut MemKeeper,
    word: &str,
    input: &str,
    end: Ending,
    written: &str,
) -> Result<bool, Memory> {
    let ran = run_kept(alloc, &[word, "s"], input.as_bytes(), &WHOLE, keeper)?;
    Ok(ran.is(end, written))
}

/// Whether a store follows a feed, refuses it as it then stands, follows one that begins there, and leads on from there.
fn goes_on(alloc: Global, keeper: &mut MemKeeper) -> Result<bool, Memory> {
    let feed = text_of(alloc, &[HEAD, REPAIRS, BASE, BATCH])?;
    let later = text_of(
        alloc,
        &[
            HEAD,
            REPAIRS,
            "fact\t1\tAustin\tCamry\t100\nfact\t2\tAustin\tCamry\t300\nfact\t3\tDallas\tCamry\t50\nfact\t4\tTX\tCamry\t600\nbased\n",
        ],
    )?;
    Ok(
        goes_so(alloc, keeper, "follow", feed.as_str(), DONE, "applied\t1\n")?
            && holds_just(keeper.content(), &REPAIR_FACTS, &REPAIR_SPREADS)
            && goes_so(
                alloc,
                keeper,
                "follow",
                feed.as_str(),
                Ending::Base { place: Some(3) },
                "",
            )?
            && goes_so(alloc, keeper, "follow", later.as_str(), DONE, "")?
            && goes_so(alloc, keeper, "lead", "", DONE, later.as_str())?
            && keeper.journal().len() == 2,
    )
}

fn follows_again(alloc: Global) -> Result<bool, Memory> {
    let mut keeper = keeper_of(alloc, "", &[], &[], &[])?;
    let follows = goes_on(alloc, &mut keeper);
    drop(keeper);
    follows
}

#[test]
fn a_feed_that_is_followed_again(rt: HostRuntime) {
    assert!(rt; follows_again(rt.alloc()) == Ok(true));
}
