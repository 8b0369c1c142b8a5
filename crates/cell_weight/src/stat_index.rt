//! The statistics of the cells.
ghost use Rattle.std.specs.Prelude.{◌≡◌, [], ◌∷◌, All, OnErr, OnOk, true};
ghost use Rattle.std.specs.Map.{keys_of};
ghost use Rattle.staged_map.specs.Staged.{Reserves, ReservesSome, has_place};
ghost use Rattle.cell_weight.specs.Stats.{AreOfDifferentCells, AreStats, Installs, IsStat, has_facts, have_stat_places, stat_at};

use cube_base::Memory;
use cube_model::CellStat;
use staged_map::Staged;
use std::alloc::Global;
use std::marker::Model;

/// What a cell has where no fact lies.
const NO_FACTS: CellStat = CellStat { count: 0, sum: 0 };

/// What is known of each cell's precise facts. A cell that has none takes no room: its statistics are zeros, and none
/// are kept for it. Contracts see the places of the map beneath.
#[derive(Drop)]
pub struct StatIndex {
    stats: Staged<CellStat>,
}

impl Model for StatIndex {
    ghost use Rattle.cube_model.specs.declared.statistic.CellStat.{CellStat};
    ghost use Rattle.staged_map.specs.Staged.{Places};
    ghost use Rattle.cell_weight.specs.Stats.{AreStats};

    ghost Value = { Places CellStat };

    ghost view = { λ s. s.stats };

    ghost invariant = { λ s. AreStats s.stats };
}

impl StatIndex {
    /// No cell has facts. It takes no memory.
    pub fn new(alloc: Global) -> Self
        ensures { result ≡ [] }
    {
        StatIndex {
            stats: Staged::new(alloc),
        }
    }

    /// The statistics of a cell. It takes no memory.
    pub fn stat(&self, cell: u64) -> CellStat
        ensures stat { result ≡ stat_at self.now cell }
        ensures possible { IsStat result }
        ensures all_possible { AreStats self.now }
    {
        self.stats.get(cell).copied().unwrap_or(NO_FACTS)
    }

    /// Gives each changed cell a place, so that `install` needs no memory. All statistics stay. On an error some of the
    /// changed cells may have got a place.
    pub fn stage(&mut self, changes: &[(u64, CellStat)]) -> Result<(), Memory>
        ensures ok { OnOk result (Reserves self.old self.new (keys_of changes.now)) }
        ensures ready { OnOk result (have_stat_places self.new changes.now ≡ true) }
        ensures err { OnErr result (ReservesSome self.old self.new (keys_of changes.now)) }
    {
        for (cell, _) in changes {
            self.stats.reserve(&[*cell])?;
        }
        Ok(())
    }

    /// Gives each changed cell its new statistics, which must be such as facts can have. The cells differ from one another
    /// and have places, as `stage` gives them. Where the new statistics are zeros, the place goes too. It takes no memory.
    pub fn install(&mut self, changes: &[(u64, CellStat)])
        requires distinct { AreOfDifferentCells changes.now }
        requires places { have_stat_places self.old changes.now ≡ true }
        requires possible { All (λ change. IsStat change.1) changes.now }
        ensures { Installs self.old self.new changes.now }
    {
        for (cell, stat) in changes {
            put(&mut self.stats, *cell, *stat);
        }
    }
}

/// Gives a cell that has a place its new statistics.
fn put(stats: &mut Staged<CellStat>, cell: u64, stat: CellStat)
    requires { has_place stats.old cell ≡ true }
    ensures { Installs stats.old stats.new ((cell, stat) ∷ []) }
{
    if has_facts(stat) {
        let _ = stats.set(cell, stat);
    } else {
        let _ = stats.remove(cell);
    }
}

/// Whether a cell with these statistics has facts.
fn has_facts(stat: CellStat) -> bool
    ensures { result ≡ has_facts stat }
{
    stat.count != 0 || stat.sum != 0
}
