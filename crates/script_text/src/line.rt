//! What a line of a script says.
ghost use Rattle.std.specs.Prelude.{◌≡◌};
ghost use Rattle.script_text.specs.ScriptWord.{word_asked};

use crate::depths::CutDepths;
use crate::word::{
    AskWord, IdWord, MeasureTableWord, MeasureWord, RegionWord, RoundsWord, TableWord, ViewWord,
};
use cube_base::{Code, Memory};
use cube_model::{Edit, Grow, Region};

/// What a line of a script says.
#[derive(Debug, Drop)]
pub enum Line {
    /// Nothing: it is skipped.
    Nothing,
    /// An edit of the facts.
    Edit(Edit),
    /// A leaf that a dimension is to get.
    Grow(Grow),
    /// A question.
    Ask(Question),
}

/// What a line asks: its word, and what stands after that.
#[derive(Clone, Copy, Debug)]
pub enum Question {
    /// Of a region.
    OfRegion {
        word: RegionWord,
        region: Region,
    },
    /// Of the measure at a place, over a region.
    OfMeasure {
        word: MeasureWord,
        measure: u32,
        region: Region,
    },
    /// Of an id.
    OfId {
        word: IdWord,
        id: u64,
    },
    /// Of the view at a place.
    OfView {
        word: ViewWord,
        view: u32,
    },
    /// Of a region, after so many rounds.
    OfRounds {
        word: RoundsWord,
        rounds: u32,
        region: Region,
    },
    /// Of the regions at these depths that lie in one.
    OfTable {
        word: TableWord,
        depths: CutDepths,
        region: Region,
    },
    /// Of the measure at a place, over each of such regions.
    OfMeasureTable {
        word: MeasureTableWord,
        measure: u32,
        depths: CutDepths,
        region: Region,
    },
}

impl Question {
    /// The word of the question.
    pub fn word(&self) -> AskWord
        ensures { result ≡ word_asked self.now }
    {
        match self {
            Question::OfRegion { word, .. } => AskWord::OfRegion(*word),
            Question::OfMeasure { word, .. } => AskWord::OfMeasure(*word),
            Question::OfId { word, .. } => AskWord::OfId(*word),
            Question::OfView { word, .. } => AskWord::OfView(*word),
            Question::OfRounds { word, .. } => AskWord::OfRounds(*word),
            Question::OfTable { word, .. } => AskWord::OfTable(*word),
            Question::OfMeasureTable { word, .. } => AskWord::OfMeasureTable(*word),
        }
    }
}

/// Why a line of a script is not read.
#[derive(Clone, Copy, Debug, PartialEq, Eq)]
pub enum LineFault {
    /// It is refused.
    Code(Code),
    /// Out of memory.
    Memory,
}

impl From<Code> for LineFault {
    ghost use Rattle.std.specs.Prelude.{◌≡◌};
    ghost use Rattle.script_text.specs.declared.line.LineFault.TheVariants as line_fault;

    ghost from_gives = { λ code fault. fault ≡ line_fault.Code code };

    fn from(code: Code) -> Self {
        LineFault::Code(code)
    }
}

impl From<Memory> for LineFault {
    ghost use Rattle.std.specs.Prelude.{◌≡◌};
    ghost use Rattle.script_text.specs.declared.line.LineFault.TheVariants as line_fault;

    ghost from_gives = { λ _ fault. fault ≡ line_fault.Memory };

    fn from(_: Memory) -> Self {
        LineFault::Memory
    }
}
