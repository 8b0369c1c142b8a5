//! A walk through facts.
ghost use Rattle.std.specs.Prelude.{◌≡◌};
ghost use Rattle.std.specs.Iterator.{YieldsFirst, item_count};
ghost use Rattle.fact_records.specs.BlockList.{AllFilled, all_facts};
ghost use Rattle.fact_records.specs.FactList.{facts_left};

use crate::block::Block;
use cube_model::Fact;
use std::marker::Model;

/// The facts of a list in order of their ids, each once. Contracts see those that are left.
#[derive(Drop)]
pub struct FactWalk<'a> {
    // The blocks from that of the next fact on, and its place there.
    blocks: &'a [Block],
    at: usize,
}

impl<'a> Model for FactWalk<'a> {
    ghost use Rattle.std.specs.Prelude.{List, drop};
    ghost use Rattle.cube_model.specs.declared.edit.Fact.{Fact};
    ghost use Rattle.fact_records.specs.BlockList.{all_facts};
    ghost use Rattle.fact_records.specs.Walking.{IsNextPlace};

    ghost Value = { List Fact };

    ghost view = { λ w. drop w.at (all_facts w.blocks.now) };

    ghost invariant = { λ w. IsNextPlace w.blocks.now w.at };
}

impl<'a> FactWalk<'a> {
    /// The walk through the facts of blocks.
    pub(crate) fn new(blocks: &'a [Block]) -> Self
        requires { AllFilled blocks.now }
        ensures { facts_left result ≡ all_facts blocks.now }
    {
        FactWalk { blocks, at: 0 }
    }
}

impl<'a> Iterator for FactWalk<'a> {
    type Item = Fact;

    ghost next_gives = { YieldsFirst facts_left };

    ghost remaining = { item_count facts_left };

    fn next(&mut self) -> Option<Fact> {
        let (block, others) = self.blocks.split_first()?;
        let fact = block.get(self.at);
        self.at += 1;
        if self.at == block.len() {
            self.blocks = others;
            self.at = 0;
        }
        Some(fact)
    }
}
