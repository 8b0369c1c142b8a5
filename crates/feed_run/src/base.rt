//! What a store holds that is to follow a feed.
ghost use Rattle.std.specs.Prelude.{◌≡◌, map};
ghost use Rattle.store_audit.specs.Sound.{fact_told};

use cube_base::Bytes;
use fact_keeper::{KeptFact, KeptFacts};
use std::marker::Model;

/// What a store holds that is to follow a feed, where there is something in it. Contracts see the text and the facts that are told.
#[derive(Debug, Drop)]
pub struct Base {
    text: Bytes,
    facts: KeptFacts,
}

impl Model for Base {
    ghost use Rattle.std.specs.Prelude.{map};
    ghost use Rattle.store_audit.specs.Sound.{fact_told};
    ghost use Rattle.feed_run.specs.Following.{Base};

    ghost Value = { Base };

    ghost view = { λ b. record { text = b.text; facts = map fact_told b.facts } };
}

impl Base {
    /// The one text of a schema, and the facts of a store, as they are kept.
    pub fn new(text: Bytes, facts: KeptFacts) -> Self
        ensures { result ≡ record { text = text; facts = map fact_told facts } }
    {
        Base { text, facts }
    }

    /// The text of its schema.
    pub(crate) fn text(&self) -> &[u8]
        ensures { result.now ≡ self.now.text }
    {
        self.text.as_slice()
    }

    /// Its facts, as they are kept.
    pub(crate) fn facts(&self) -> &[KeptFact]
        ensures { map fact_told result.now ≡ self.now.facts }
    {
        self.facts.as_slice()
    }
}
