//! What the facts add up to in each region of a table.
ghost use Rattle.std.specs.Prelude.{◌≡◌, ℕ, ◌+◌, ◌≤◌, All, IfOk, List, length, map};
ghost use Rattle.cube_model.specs.declared.edit.Fact.{Fact};
ghost use Rattle.cube_model.specs.declared.statistic.CellStat.{CellStat};
ghost use Rattle.cube_model.specs.Answer.{answer, merge_all};
ghost use Rattle.cube_model.specs.Tree.{IsTree};
ghost use Rattle.exact_fraction.specs.Moderate.{IsModerate};
ghost use Rattle.fact_records.specs.Shape.{width_of_all};
ghost use Rattle.region_algebra.specs.Space.{IsRegion};
ghost use Rattle.schema_text.specs.Schema.{SchemaValue};
ghost use Rattle.cube_core.specs.Cube.{cube_answer, rows_over};
ghost use Rattle.cube_core.specs.View.{table_over};

use crate::Cube;
use cell_weight::WeightPolicy;
use cube_base::Memory;
use cube_model::Region;
use view_store::ViewList;

impl<P: WeightPolicy + Drop> Cube<P> {
    /// The table of `r`, which must be a region of the space, at a depth for each dimension. Its members in a dimension are the nodes of
    /// that depth under the region's node, and the leaves above that depth; or that node alone where it lies deeper. It
    /// has the regions of members where the facts have terms, with these, the first dimension slowest. All its terms
    /// merged are the answer in `r`. It makes one pass over the facts' regions that have a cell in common with `r`; a
    /// region without terms costs nothing. The one error is running out of memory.
    pub fn table(&self, depths: &[u8], r: Region) -> Result<ViewList, Memory>
        requires depths { length depths.now ≡ length self.now.schema.dims }
        requires region { IsRegion self.now.schema.dims r }
        ensures entries { IfOk result (λ list. list ≡ table_over (P.weigh self.now.policy) self.now.schema self.now.facts depths.now r) }
        ensures regions { IfOk result (All (λ entry. IsRegion self.now.schema.dims entry.0)) }
        ensures columns { IfOk result (All (λ entry. entry.1.columns ≡ width_of_all self.now.schema.measures + 1)) }
        ensures some { IfOk result (All (λ entry. 1 ≤ length entry.1.terms)) }
        ensures moderate { IfOk result (All (λ entry. IsModerate entry.1.terms)) }
        ensures merged { IfOk result (λ list. merge_all (width_of_all self.now.schema.measures) (map (λ entry. entry.1.terms) list) ≡ cube_answer P.weigh self.now r) }
    {
        let _ = self.schema.space();
        let _ = self.state.facts();
        self.state.table(depths, r)
    }
}

/// The terms of a table's regions merge to those of the asked region: whatever the facts, how cells weigh, and the depths.
pub fn tables_merge()
    ensures { (weigh : CellStat → ℕ) (schema : SchemaValue) (facts : List Fact) (depths region : List ℕ) → All IsTree schema.dims → length depths ≡ length schema.dims → IsRegion schema.dims region
        → merge_all (width_of_all schema.measures) (map (λ entry. entry.1.terms) (table_over weigh schema facts depths region)) ≡ answer (width_of_all schema.measures) schema.dims (rows_over weigh schema facts) region }
{}
