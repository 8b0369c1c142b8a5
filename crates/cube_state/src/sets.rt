//! What an edit will set.
use crate::Group;
use cell_weight::CellStat;
use cube_base::PlainList;
use region_index::RegionStage;
use std::marker::Model;
use touched_cells::Few;
use view_store::ViewStage;

/// What an edit will set of what a state keeps beside its facts, for which there is room there.
#[derive(Drop)]
pub struct Sets {
    pub(crate) stats: Few<(u64, CellStat)>,
    pub(crate) index: RegionStage,
    pub(crate) groups: PlainList<(u64, Option<Group>)>,
    pub(crate) views: ViewStage,
}

impl Model for Sets {
    ghost use Rattle.cube_state.specs.Sets.{SetsValue};

    ghost Value = { SetsValue };

    ghost view = { λ s. record {
      stats = s.stats;
      index = s.index;
      groups = s.groups;
      views = s.views;
    } };
}
