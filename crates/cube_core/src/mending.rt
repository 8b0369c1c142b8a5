//! The rows of a stored content put right over a schema.
ghost use Rattle.std.specs.Prelude.{◌≡◌, IfErr, IfOk, OnOk, length};
ghost use Rattle.fact_keeper.specs.Batch.{apply_batch};
ghost use Rattle.schema_text.specs.Schema.{schema_policy, shape_of};
ghost use Rattle.store_audit.specs.Mending.{IsMendFault, IsMendable, mended, mended_batch};
ghost use Rattle.store_audit.specs.Sound.{IsSound, rows_counted};

use crate::Cube;
use cell_weight::WeightPolicy;
use fact_keeper::Stored;
use schema_text::Schema;
use std::alloc::Global;
use store_audit::{LoadFault, Mending, mend_rows};

impl<P: WeightPolicy + Drop> Cube<P> {
    /// What puts the rows of a stored content right, which weighs cells by this policy. After its batch the content is
    /// sound, and the batch is empty where it was. `Bad` is answered exactly where the facts of the content are not
    /// sound over the schema, with what is found first. The only other error is running out of memory. Whatever rows
    /// are kept, they are no error. The text of the content's schema, which must read as this one, is not looked at. It
    /// takes time in proportion to the facts and rows, with a search for each fact and each kept entry.
    pub fn mend_rows(
        alloc: Global,
        schema: &Schema,
        stored: &Stored,
        policy: P,
    ) -> Result<Mending, LoadFault>
        ensures batch { IfOk result (λ m. m.batch ≡ mended_batch (schema_policy (P.weigh policy) schema.now) schema.now.dims stored.now) }
        ensures facts { IfOk result (λ m. m.facts ≡ length stored.now.facts) }
        ensures rows { IfOk result (λ m. m.rows ≡ rows_counted (schema_policy (P.weigh policy) schema.now) schema.now.dims stored.now) }
        ensures applied { IfOk result (λ m. apply_batch m.batch stored.now ≡ mended (schema_policy (P.weigh policy) schema.now) schema.now.dims stored.now) }
        ensures sound { OnOk result (IsSound (schema_policy (P.weigh policy) schema.now) (shape_of schema.now) schema.now.dims (mended (schema_policy (P.weigh policy) schema.now) schema.now.dims stored.now)) }
        ensures mendable { OnOk result (IsMendable (schema_policy (P.weigh policy) schema.now) (shape_of schema.now) schema.now.dims stored.now) }
        ensures fault { IfErr result (IsMendFault (schema_policy (P.weigh policy) schema.now) (shape_of schema.now) schema.now.dims stored.now) }
    {
        let space = schema.space().copy()?;
        let shape = match schema.shape().copy() {
            Ok(shape) => shape,
            Err(fault) => {
                drop(space);
                return Err(LoadFault::from(fault));
            }
        };
        mend_rows(alloc, space, shape, policy, stored)
    }
}
