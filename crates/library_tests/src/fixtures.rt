//! Spaces that the tests stand on.
use cube_base::Name;
use cube_model::NodeLine;
use dim_tree::Dim;
use region_algebra::Space;
use schema_text::{Schema, read_schema};
use std::alloc::Global;
use std::test::Fail;

/// A node by its depth and its name.
pub type Node = (u8, &'static str);

/// Two states, of three cities and of two.
pub const CITIES: [Node; 8] = [
    (0, "All"),
    (1, "TX"),
    (2, "Austin"),
    (2, "Dallas"),
    (2, "Houston"),
    (1, "CA"),
    (2, "LA"),
    (2, "SF"),
];

/// Two kinds of cars, of two models each. After the cities, a cell's code is four times the place of the city, and the
/// place of the model.
pub const CARS: [Node; 7] = [
    (0, "All"),
    (1, "Sedan"),
    (2, "Camry"),
    (2, "Civic"),
    (1, "Truck"),
    (2, "F150"),
    (2, "Sierra"),
];

/// A root with two nodes, of one leaf and of two.
pub const PLACES: [Node; 6] = [
    (0, "All"),
    (1, "NV"),
    (2, "Reno"),
    (1, "TX"),
    (2, "Austin"),
    (2, "Dallas"),
];

/// The space over dimensions of these nodes.
pub fn space_of(alloc: Global, dims: &[&[Node]]) -> Result<Space, Fail> {
    let mut built = Vec::new(alloc);
    for nodes in dims {
        built.push(dim_of(alloc, nodes)?)?;
    }
    Ok(Space::new(alloc, built).ok().ok_or("no space")?)
}

fn dim_of(alloc: Global, nodes: &[Node]) -> Result<Dim, Fail> {
    let mut lines = Vec::new(alloc);
    for (depth, text) in nodes {
        let name = Name::new(alloc, text)?.ok_or("no name")?;
        lines.push(NodeLine {
            depth: *depth,
            name,
        })?;
    }
    Ok(Dim::build(alloc, &lines).ok().ok_or("no dimension")?)
}

/// The schema of a text.
pub fn schema_of(alloc: Global, text: &[u8]) -> Result<Schema, Fail> {
    match read_schema(alloc, text) {
        Ok((schema, _)) => Ok(schema),
        Err(_) => Err("no schema".into()),
    }
}
