//! Replies on their way to the sink, gathered into larger writes.
ghost use Rattle.std.specs.Prelude.{◌≡◌, ◌+◌, ◌<◌, ◌++◌, false, [], ◌∷◌, length, IfErr, IfSome, OnOk, OnErr};
ghost use Rattle.std.specs.Io.KnownBytes.{Appends};
ghost use Rattle.std.specs.List.{concat};
ghost use Rattle.script_text.specs.Reply.{NamesCells};
ghost use Rattle.script_run.specs.Written.{Broken};
ghost use Rattle.script_run.specs.Progress.{AreFewReplies, CountsCut};
ghost use Rattle.script_run.specs.ReplyEnds.{reply_ends_from, whole_within};
ghost use Rattle.script_run.specs.Run.{text_of};
ghost use Rattle.script_run.specs.Seen.{Wrote, sink_seen};

use cube_base::{Memory, Sink, SinkError, write_from};
use schema_text::Schema;
use script_text::{Reply, append_reply};
use std::alloc::Global;
use std::marker::Model;

/// How many bytes are gathered before they are written.
const GATHERED: usize = 1 << 15;

/// How many lines' replies are gathered before they are written, however short they are.
const GATHERED_LINES: usize = 1 << 12;

/// Replies that are not written. A line's reply may be empty. Contracts see the list of their texts.
#[derive(Drop)]
pub struct Outbox {
    // The replies, one after the other.
    text: Vec<u8>,
    // For each reply, the length of `text` up to its end.
    ends: Vec<usize>,
}

impl Model for Outbox {
    ghost use Rattle.std.specs.Prelude.{ℕ, List};
    ghost use Rattle.script_run.specs.ReplyEnds.{IsCutAtEnds, cut_at_ends};

    ghost Value = { List (List ℕ) };

    ghost view = { λ o. cut_at_ends 0 o.ends.items o.text.items };

    ghost invariant = { λ o. IsCutAtEnds o.ends.items o.text.items };
}

/// Where a sink broke off.
#[derive(Clone, Copy, Debug, PartialEq, Eq)]
pub struct CutOff {
    /// Why it took no more.
    pub error: SinkError,
    /// How many of the replies it took whole.
    pub whole: u64,
}

impl Outbox {
    /// No replies.
    pub fn new(alloc: Global) -> Self
        ensures { result ≡ [] }
    {
        Outbox {
            text: Vec::new(alloc),
            ends: Vec::new(alloc),
        }
    }

    /// The number of the replies.
    pub fn len(&self) -> u64
        ensures { result ≡ length self.now }
    {
        self.ends.len() as u64
    }

    /// Whether enough is gathered for a write.
    pub fn is_full(&self) -> bool
        ensures { result ≡ false → AreFewReplies self.now }
    {
        self.text.len() >= GATHERED || self.ends.len() >= GATHERED_LINES
    }

    /// Gathers the reply to one more line. An error, which means out of memory, leaves the replies as they were.
    pub fn gather(&mut self, schema: &Schema, reply: &Option<Reply>) -> Result<(), Memory>
        requires { IfSome reply.now (NamesCells schema.now.dims) }
        ensures gathered { OnOk result (self.new ≡ self.old ++ text_of schema.now.dims reply.now ∷ []) }
        ensures same { OnErr result (self.new ≡ self.old) }
    {
        self.ends.reserve(1)?;
        append_some(&mut self.text, schema, reply)?;
        self.ends.push_reserved(self.text.len());
        Ok(())
    }

    /// Writes the replies. On an error the sink took a part of them, and they are there as before.
    pub fn send<K: Sink>(&mut self, out: &mut K) -> Result<(), CutOff>
        ensures bytes { OnOk result (Appends (K.tells out.old).taken (K.tells out.new).taken (concat self.old)) }
        ensures empty { OnOk result (self.new ≡ []) }
        ensures count { OnOk result ((K.tells out.new).faults ≡ (K.tells out.old).faults) }
        ensures same { OnErr result (self.new ≡ self.old) }
        ensures within { IfErr result (λ cut. cut.whole < length self.old) }
        ensures cut { IfErr result (λ cut. Wrote (K.tells out.old).taken (K.tells out.new).taken (Broken self.old (cut.whole + 1))) }
        ensures cause { IfErr result (λ cut. CountsCut (sink_seen K.tells out.old out.new) cut.error) }
    {
        let mut taken = 0;
        if let Err(error) = write_from(out, &self.text, &mut taken) {
            return Err(CutOff {
                error,
                whole: self.whole(taken),
            });
        }
        self.text.clear();
        self.ends.clear();
        Ok(())
    }

    // How many of the replies end within so many bytes.
    fn whole(&self, taken: usize) -> u64
        ensures { result ≡ whole_within taken (reply_ends_from 0 self.now) }
    {
        self.ends.iter().filter(|end| **end <= taken).count() as u64
    }
}

// Appends the text of a reply, if there is one. An error leaves the text as it was.
fn append_some(text: &mut Vec<u8>, schema: &Schema, reply: &Option<Reply>) -> Result<(), Memory>
    requires { IfSome reply.now (NamesCells schema.now.dims) }
    ensures ok { OnOk result (text.new.items ≡ text.old.items ++ text_of schema.now.dims reply.now) }
    ensures err { OnErr result (text.new.items ≡ text.old.items) }
{
    match reply {
        Some(reply) => append_reply(text, schema, reply),
        None => Ok(()),
    }
}
