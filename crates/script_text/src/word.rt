//! The words that lines of a script begin with: the kinds of what stands after them, and how each is spelled.
ghost use Rattle.std.specs.Prelude.{◌≡◌};
ghost use Rattle.script_text.specs.ScriptWord.{each_of, kind_of, line_of_fact, spelling_of, word_among, word_spelled};

use crate::line::Line;
use ScriptWord::Asks;
use cube_model::{Edit, Fact};
use fact_records::MeasureKind;

/// The first field of a line of a script, by what stands after it.
#[derive(Clone, Copy, Debug, PartialEq, Eq)]
pub enum ScriptWord {
    /// An id, a node of each dimension and a field of each measure.
    OfFact(FactWord),
    /// `withdraw|ID`: the fact of an id is taken out.
    Withdraw,
    /// `grow|DIMENSION|PARENT|NAME`: a leaf that a dimension is to get.
    Grow,
    /// What a question asks of.
    Asks(AskWord),
}

/// A word before a fact.
#[derive(Clone, Copy, Debug, PartialEq, Eq)]
pub enum FactWord {
    /// `insert|ID|NODE..|VALUE..`: a new fact.
    Insert,
    /// `change|ID|NODE..|VALUE..`: a fact in the place of the one that has its id.
    Change,
}

/// The word of a question, by what it asks of.
#[derive(Clone, Copy, Debug, PartialEq, Eq)]
pub enum AskWord {
    /// A node of each dimension.
    OfRegion(RegionWord),
    /// The name of a measure and a node of each dimension.
    OfMeasure(MeasureWord),
    /// An id.
    OfId(IdWord),
    /// The name of a view.
    OfView(ViewWord),
    /// A number of rounds and a node of each dimension.
    OfRounds(RoundsWord),
    /// A depth and then a node of each dimension.
    OfTable(TableWord),
    /// The name of a measure, a depth and then a node of each dimension.
    OfMeasureTable(MeasureTableWord),
}

/// A word before a region.
#[derive(Clone, Copy, Debug, PartialEq, Eq)]
pub enum RegionWord {
    /// `count|NODE..`: how much the facts in a region count.
    Count,
    /// `terms|NODE..`: what the facts in a region add up to.
    Terms,
    /// `worlds|NODE..`: what all possible worlds of the facts add up to in a region.
    Worlds,
    /// `rangecount|NODE..`: the least and the greatest count of a region in a possible world.
    RangeCount,
}

/// A word before a measure and a region.
#[derive(Clone, Copy, Debug, PartialEq, Eq)]
pub enum MeasureWord {
    /// `sum|MEASURE|NODE..`: the sum of a number measure over a region.
    Sum,
    /// `avg|MEASURE|NODE..`: that sum divided by the count.
    Avg,
    /// `pool|MEASURE|NODE..`: the pooled distribution of a parts measure over a region.
    Pool,
    /// `range|MEASURE|NODE..`: the least and the greatest sum of a number measure over a region in a possible world.
    Range,
    /// `least|MEASURE|NODE..`: the least of these sums, and where each imprecise fact lies in a world that has it.
    Least,
    /// `greatest|MEASURE|NODE..`: the greatest of these sums, and the same.
    Greatest,
}

/// A word before the id of a fact.
#[derive(Clone, Copy, Debug, PartialEq, Eq)]
pub enum IdWord {
    /// `rows|ID`: how a fact is spread.
    Rows,
    /// `component|ID`: the ids of the facts on which a fact depends.
    Component,
}

/// A word before the name of a view.
#[derive(Clone, Copy, Debug, PartialEq, Eq)]
pub enum ViewWord {
    /// `view|NAME`: a view, entry by entry.
    View,
}

/// A word before a number of rounds and a region.
#[derive(Clone, Copy, Debug, PartialEq, Eq)]
pub enum RoundsWord {
    /// `iterate|ROUNDS|NODE..`: what the facts in a region add up to where imprecise facts are shared round after round.
    Iterate,
}

/// A word before the depths and the region of a table.
#[derive(Clone, Copy, Debug, PartialEq, Eq)]
pub enum TableWord {
    /// `counts|DEPTH..|NODE..`: `count` of each region of a table.
    Counts,
}

/// A word before a measure and the depths and the region of a table.
#[derive(Clone, Copy, Debug, PartialEq, Eq)]
pub enum MeasureTableWord {
    /// `sums|MEASURE|DEPTH..|NODE..`: `sum` of each region of a table.
    Sums,
    /// `avgs|MEASURE|DEPTH..|NODE..`: `avg` of each of them.
    Avgs,
    /// `pools|MEASURE|DEPTH..|NODE..`: `pool` of each of them.
    Pools,
}

/// The word before a new fact.
const INSERT: ScriptWord = ScriptWord::OfFact(FactWord::Insert);

/// All words.
const WORDS: [ScriptWord; 22] = [
    ScriptWord::OfFact(FactWord::Insert),
    ScriptWord::OfFact(FactWord::Change),
    ScriptWord::Withdraw,
    ScriptWord::Grow,
    Asks(AskWord::OfRegion(RegionWord::Count)),
    Asks(AskWord::OfMeasure(MeasureWord::Sum)),
    Asks(AskWord::OfMeasure(MeasureWord::Avg)),
    Asks(AskWord::OfMeasure(MeasureWord::Pool)),
    Asks(AskWord::OfRegion(RegionWord::Terms)),
    Asks(AskWord::OfId(IdWord::Rows)),
    Asks(AskWord::OfView(ViewWord::View)),
    Asks(AskWord::OfRegion(RegionWord::Worlds)),
    Asks(AskWord::OfTable(TableWord::Counts)),
    Asks(AskWord::OfMeasureTable(MeasureTableWord::Sums)),
    Asks(AskWord::OfMeasureTable(MeasureTableWord::Avgs)),
    Asks(AskWord::OfMeasureTable(MeasureTableWord::Pools)),
    Asks(AskWord::OfMeasure(MeasureWord::Range)),
    Asks(AskWord::OfRegion(RegionWord::RangeCount)),
    Asks(AskWord::OfMeasure(MeasureWord::Least)),
    Asks(AskWord::OfMeasure(MeasureWord::Greatest)),
    Asks(AskWord::OfRounds(RoundsWord::Iterate)),
    Asks(AskWord::OfId(IdWord::Component)),
];

impl ScriptWord {
    /// How the word is spelled.
    pub fn spelling(self) -> &'static str
        ensures { result.now ≡ spelling_of self }
    {
        match self {
            ScriptWord::OfFact(FactWord::Insert) => "insert",
            ScriptWord::OfFact(FactWord::Change) => "change",
            ScriptWord::Withdraw => "withdraw",
            ScriptWord::Grow => "grow",
            Asks(AskWord::OfRegion(RegionWord::Count)) => "count",
            Asks(AskWord::OfMeasure(MeasureWord::Sum)) => "sum",
            Asks(AskWord::OfMeasure(MeasureWord::Avg)) => "avg",
            Asks(AskWord::OfMeasure(MeasureWord::Pool)) => "pool",
            Asks(AskWord::OfRegion(RegionWord::Terms)) => "terms",
            Asks(AskWord::OfId(IdWord::Rows)) => "rows",
            Asks(AskWord::OfView(ViewWord::View)) => "view",
            Asks(AskWord::OfRegion(RegionWord::Worlds)) => "worlds",
            Asks(AskWord::OfTable(TableWord::Counts)) => "counts",
            Asks(AskWord::OfMeasureTable(MeasureTableWord::Sums)) => "sums",
            Asks(AskWord::OfMeasureTable(MeasureTableWord::Avgs)) => "avgs",
            Asks(AskWord::OfMeasureTable(MeasureTableWord::Pools)) => "pools",
            Asks(AskWord::OfMeasure(MeasureWord::Range)) => "range",
            Asks(AskWord::OfRegion(RegionWord::RangeCount)) => "rangecount",
            Asks(AskWord::OfMeasure(MeasureWord::Least)) => "least",
            Asks(AskWord::OfMeasure(MeasureWord::Greatest)) => "greatest",
            Asks(AskWord::OfRounds(RoundsWord::Iterate)) => "iterate",
            Asks(AskWord::OfId(IdWord::Component)) => "component",
        }
    }
}

/// The word that a field spells.
pub fn word_spelled(field: &str) -> Option<ScriptWord>
    ensures { result ≡ word_spelled field.now }
{
    // At once, since most lines of a long script begin with it.
    if field == INSERT.spelling() {
        return Some(INSERT);
    }
    word_among(&WORDS, field)
}

/// The first of these words that a field spells.
fn word_among(words: &[ScriptWord], field: &str) -> Option<ScriptWord>
    ensures { result ≡ word_among words.now field.now }
{
    for word in words {
        if field == word.spelling() {
            return Some(*word);
        }
    }
    None
}

impl FactWord {
    /// The line of the word and a fact.
    pub fn line(self, fact: Fact) -> Line
        ensures { result ≡ line_of_fact self fact }
    {
        Line::Edit(match self {
            FactWord::Insert => Edit::Put(fact),
            FactWord::Change => Edit::Change(fact),
        })
    }
}

impl MeasureWord {
    /// The kind of the measure that the word takes.
    pub fn kind(self) -> MeasureKind
        ensures { result ≡ kind_of self }
    {
        match self {
            MeasureWord::Sum | MeasureWord::Avg => MeasureKind::Number,
            MeasureWord::Pool => MeasureKind::Parts,
            MeasureWord::Range | MeasureWord::Least | MeasureWord::Greatest => MeasureKind::Number,
        }
    }
}

impl MeasureTableWord {
    /// The word of what is given for each region of the table.
    pub fn each(self) -> MeasureWord
        ensures { result ≡ each_of self }
    {
        match self {
            MeasureTableWord::Sums => MeasureWord::Sum,
            MeasureTableWord::Avgs => MeasureWord::Avg,
            MeasureTableWord::Pools => MeasureWord::Pool,
        }
    }
}
