//! Policies: what a cell weighs, by its statistics.
ghost use Rattle.std.specs.Prelude.{◌≡◌, ℕ, ◌+◌, ◌*◌, ◌≤◌};
ghost use Rattle.cube_model.specs.Allocation.{weigh_count, weigh_evenly, weigh_sum};
ghost use Rattle.cube_model.specs.Limits.{MAX_VALUE};
ghost use Rattle.cube_model.specs.declared.statistic.CellStat.{CellStat};
ghost use Rattle.cell_weight.specs.Stats.{IsStat};
ghost use Rattle.std.proofs.Common.{arith};

use cube_model::CellStat;

/// What a cell weighs, by the statistics of its precise facts. A policy keeps two laws: the weight is a function of the
/// policy and these statistics, `weigh`, and it is at most 1 + count * 10^12. By the second law a denominator is below
/// 2^60, since a fact is spread over at most 2^20 cells, at which at most 2^20 precise facts lie.
pub trait WeightPolicy {
    ghost weigh: { Self → CellStat → ℕ };

    /// The weight of a cell with these statistics, which must be such as facts can have: at most 2^20 of them, with a sum
    /// of at most 10^12 each.
    fn weight(&self, s: CellStat) -> u64
        requires { IsStat s }
        ensures { result ≡ weigh self.now s };

    ghost bound: { (policy : Self) (s : CellStat) → IsStat s → weigh policy s ≤ 1 + s.count * MAX_VALUE };
}

/// Every cell weighs 1.
#[derive(Clone, Copy, Debug)]
pub struct Uniform;

impl WeightPolicy for Uniform {
    ghost weigh = { λ _. weigh_evenly };

    ghost bound = { λ policy s is. omega arith };

    fn weight(&self, _: CellStat) -> u64 {
        1
    }
}

/// A cell weighs as much as it has precise facts.
#[derive(Clone, Copy, Debug)]
pub struct ByCount;

impl WeightPolicy for ByCount {
    ghost weigh = { λ _. weigh_count };

    ghost bound = { λ policy s is. omega arith };

    fn weight(&self, s: CellStat) -> u64 {
        s.count
    }
}

/// A cell weighs the sum that is known of its precise facts.
#[derive(Clone, Copy, Debug)]
pub struct BySum;

impl WeightPolicy for BySum {
    ghost weigh = { λ _. weigh_sum };

    ghost bound = { λ policy s is. omega arith };

    fn weight(&self, s: CellStat) -> u64 {
        s.sum
    }
}
