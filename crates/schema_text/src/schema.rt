//! A schema: the policy, the measures, the named dimensions and the views of a cube.
ghost use Rattle.std.specs.Prelude.{◌≡◌, ◌<◌, All, IfOk, IfSome, length, true};
ghost use Rattle.cube_base.specs.Name.{is_name};
ghost use Rattle.schema_text.specs.Schema.{AreNames, AreViews, IsKind, IsSchema, over_dims, shape_of, view_named, weighing_measure};

use crate::views::place_of;
use crate::word::PolicyWord;
use cube_base::{Code, Memory, Name, Names};
use fact_records::Shape;
use region_algebra::{Space, ViewDef, ViewDefs};
use std::alloc::Global;
use std::marker::Model;

/// Why a text is refused as a schema.
#[derive(Clone, Copy, Debug, PartialEq, Eq)]
pub enum SchemaFault {
    /// The first line at fault, counted from 1, and why it is refused. A text that ends before its `end` is at fault in
    /// the line after its last.
    Bad { line: u64, code: Code },
    /// Out of memory.
    Memory,
}

impl From<Memory> for SchemaFault {
    ghost use Rattle.std.specs.Prelude.{◌≡◌};
    ghost use Rattle.schema_text.specs.declared.schema.SchemaFault.TheVariants as schema_fault;

    ghost from_gives = { λ _ fault. fault ≡ schema_fault.Memory };

    fn from(_: Memory) -> Self {
        SchemaFault::Memory
    }
}

/// A schema: the policy, the measures, and the dimensions with their names. It has 1 to 6 dimensions, which have distinct
/// names and are a space, 0 to 7 measures, each of numbers or of distributions over 2 to 7 outcomes of distinct names, and 0
/// to 4 views of distinct names, each with a depth from 0 to 8 for each dimension. Contracts see the policy, the list of the
/// measures, the list of the dimensions' names, the list of the dimensions and the list of the views, each in the order of
/// the text.
#[derive(Drop)]
pub struct Schema {
    space: Space,
    /// The measures; its weight is that of the policy.
    shape: Shape,
    policy: PolicyWord,
    dim_names: Names,
    views: ViewDefs,
}

impl Model for Schema {
    ghost use Rattle.std.specs.Prelude.{◌≡◌};
    ghost use Rattle.schema_text.specs.Schema.{IsSchema, SchemaValue, weighing_measure};

    ghost Value = { SchemaValue };

    ghost view = { λ s. record { policy = s.policy; measures = s.shape.measures; names = s.dim_names; dims = s.space; views = s.views } };

    ghost invariant = { λ s. IsSchema (record { policy = s.policy; measures = s.shape.measures; names = s.dim_names; dims = s.space; views = s.views }) × (s.shape.weight ≡ weighing_measure s.policy) };
}

impl Schema {
    /// The schema of these parts.
    pub(crate) fn new(
        space: Space,
        shape: Shape,
        policy: PolicyWord,
        dim_names: Names,
        views: ViewDefs,
    ) -> Self
        requires weight { shape.weight ≡ weighing_measure policy }
        requires kinds { All (λ m. IsKind m.kind) shape.measures }
        requires measure_names { All (λ m. is_name m.name ≡ true) shape.measures }
        requires dim_names { AreNames dim_names }
        requires named { length dim_names ≡ length space }
        requires views { AreViews (length dim_names) views }
        ensures { result ≡ record { policy = policy; measures = shape.measures; names = dim_names; dims = space; views = views } }
    {
        let _ = space.dims();
        let _ = shape.len();
        Schema {
            space,
            shape,
            policy,
            dim_names,
            views,
        }
    }

    /// The dimensions.
    pub fn space(&self) -> &Space
        ensures dims { result.now ≡ self.now.dims }
        ensures schema { IsSchema self.now }
    {
        &self.space
    }

    /// The measures, and the one by whose sum cells weigh, if they do.
    pub fn shape(&self) -> &Shape
        ensures shape { result.now ≡ shape_of self.now }
        ensures schema { IsSchema self.now }
    {
        &self.shape
    }

    /// The policy.
    pub fn policy(&self) -> PolicyWord
        ensures policy { result ≡ self.now.policy }
        ensures schema { IsSchema self.now }
    {
        self.policy
    }

    /// The names of the dimensions.
    pub fn dim_names(&self) -> &[Name]
        ensures names { result.now ≡ self.now.names }
        ensures schema { IsSchema self.now }
    {
        self.dim_names.as_slice()
    }

    /// The views.
    pub fn views(&self) -> &[ViewDef]
        ensures views { result.now ≡ self.now.views }
        ensures schema { IsSchema self.now }
    {
        self.views.as_slice()
    }

    /// An equal schema over another space, of as many dimensions. The only error is running out of memory.
    pub fn over(&self, alloc: Global, space: Space) -> Result<Self, Memory>
        requires { length space ≡ length self.now.dims }
        ensures { IfOk result (λ schema. schema ≡ over_dims self.now space) }
    {
        Ok(Schema {
            space,
            shape: self.shape.copy()?,
            policy: self.policy,
            dim_names: copied_names(alloc, self.dim_names())?,
            views: copied_views(alloc, self.views())?,
        })
    }

    /// The place of the view of a name: None exactly where no view has it. It takes no memory.
    pub fn view_named(&self, name: &str) -> Option<u32>
        ensures named { result ≡ view_named self.now.views name.now }
        ensures within { IfSome result (λ view. view < length self.now.views) }
    {
        let place = place_of(self.views(), name.as_bytes())?;
        Some(place as u32)
    }
}

/// Equal names.
fn copied_names(alloc: Global, names: &[Name]) -> Result<Names, Memory>
    ensures { IfOk result (λ copies. copies ≡ names.now) }
{
    let mut copies = Names::new(alloc);
    for name in names {
        copies.push(name.copy()?)?;
    }
    Ok(copies)
}

/// Equal views.
fn copied_views(alloc: Global, views: &[ViewDef]) -> Result<ViewDefs, Memory>
    ensures { IfOk result (λ copies. copies ≡ views.now) }
{
    let mut copies = ViewDefs::new(alloc);
    for view in views {
        copies.push(view.copy(alloc)?)?;
    }
    Ok(copies)
}
