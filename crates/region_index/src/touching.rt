//! The regions that have a cell in common with a region. Two regions have one exactly where in each dimension one of their
//! nodes is under the other; and in preorder the nodes in line with a node are those above it, and then one run.
ghost use Rattle.std.specs.Prelude.{◌≡◌, ◌↔◌, ◌+◌, ◌*◌, ◌-◌, ◌<◌, ◌≤◌, ◌++◌, All, IfOk, IfSome, IsNone, MatchOption, OnOk, Some, length, map, nat_lt};
ghost use Rattle.std.specs.List.{range_with_len};
ghost use Rattle.cube_model.specs.Limits.{SPACE_LIMIT};
ghost use Rattle.cube_model.specs.Tree.{place_of};
ghost use Rattle.region_algebra.specs.Space.{IsRegion};
ghost use Rattle.region_index.specs.Touching.{AreUnderUpTo, codes_behind_places, codes_in_line, codes_touching, places_in_line};
ghost use Rattle.region_index.specs.Walk.{places_over};

use cube_base::{Ids, Memory};
use dim_tree::Dim;
use region_algebra::{Region, Space};
use std::alloc::Global;

/// The codes of the regions that have a cell in common with a region, ascending: None exactly where there are more than
/// `most`, of which no list is made.
pub fn codes_touching(
    alloc: Global,
    space: &Space,
    r: Region,
    most: u64,
) -> Result<Option<Ids>, Memory>
    requires { IsRegion space.now r }
    ensures codes { IfOk result (λ found. IfSome found (λ codes. codes ≡ codes_touching space.now r)) }
    ensures most { IfOk result (λ found. IsNone found ↔ (most < length (codes_touching space.now r))) }
{
    let _ = space.dims();
    let Some(codes) = codes_in_line(alloc, space, r, most)? else {
        return Ok(None);
    };
    if codes.len() as u64 > most {
        return Ok(None);
    }
    Ok(Some(Ids::from(codes)))
}

/// The codes of the regions in line with a region, ascending. None comes only where there are more than `most`.
fn codes_in_line(
    alloc: Global,
    space: &Space,
    r: Region,
    most: u64,
) -> Result<Option<Vec<u64>>, Memory>
    requires { IsRegion space.now r }
    ensures { IfOk result (λ found. MatchOption found (most < length (codes_in_line space.now r)) (λ codes. codes.items ≡ codes_in_line space.now r)) }
{
    let mut codes = vec![in alloc; 0]?;
    let mut step = 1;
    for d in (0..space.dims()).rev() {
        let dim = space.dim(d);
        let Some(next) = codes_with(alloc, dim, r.node(d), step, &codes, most)? else {
            return Ok(None);
        };
        codes = next;
        step *= u64::from(dim.len());
    }
    Ok(Some(codes))
}

/// The codes with a dimension more before theirs: None exactly where there are more than `most`.
fn codes_with(
    alloc: Global,
    dim: &Dim,
    node: u32,
    step: u64,
    codes: &[u64],
    most: u64,
) -> Result<Option<Vec<u64>>, Memory>
    requires node { node < length dim.now }
    requires below { All (λ code. code < step) codes.now }
    requires some { 1 ≤ length codes.now }
    requires small { length dim.now * step < SPACE_LIMIT }
    ensures { IfOk result (λ found. MatchOption found (most < length (codes_behind_places (places_in_line dim.now node) step codes.now)) (λ next. next.items ≡ codes_behind_places (places_in_line dim.now node) step codes.now)) }
{
    let _ = dim.len();
    let Some(places) = places_in_line(alloc, dim, node, most)? else {
        return Ok(None);
    };
    if is_product_above(places.len() as u64, codes.len() as u64, most) {
        return Ok(None);
    }
    Ok(Some(codes_behind(alloc, &places, step, codes)?))
}

/// Whether a product, which need not fit, is greater than a number.
fn is_product_above(a: u64, b: u64, most: u64) -> bool
    requires { 0 < a }
    ensures { result ≡ nat_lt most (a * b) }
{
    b > most / a
}

/// The codes after each of the places.
fn codes_behind(alloc: Global, places: &[u32], step: u64, codes: &[u64]) -> Result<Vec<u64>, Memory>
    requires small { All (λ place. (place + 1) * step < SPACE_LIMIT) places.now }
    requires below { All (λ code. code < step) codes.now }
    ensures { IfOk result (λ next. next.items ≡ codes_behind_places places.now step codes.now) }
{
    let mut next = Vec::new(alloc);
    for place in places {
        push_codes(u64::from(*place) * step, codes, &mut next)?;
    }
    Ok(next)
}

/// Appends the codes, counted from the first on.
fn push_codes(first: u64, codes: &[u64], next: &mut Vec<u64>) -> Result<(), Memory>
    requires { All (λ code. first + code < SPACE_LIMIT) codes.now }
    ensures { OnOk result (next.new.items ≡ next.old.items ++ map (λ code. first + code) codes.now) }
{
    for code in codes {
        next.push(first + *code)?;
    }
    Ok(())
}

/// The places of the nodes in line with a node, ascending: None exactly where there are more than `most`.
fn places_in_line(
    alloc: Global,
    dim: &Dim,
    node: u32,
    most: u64,
) -> Result<Option<Vec<u32>>, Memory>
    requires { node < length dim.now }
    ensures { IfOk result (λ found. MatchOption found (most < length (places_in_line dim.now node)) (λ places. places.items ≡ places_in_line dim.now node)) }
{
    let _ = dim.len();
    let mut places = Vec::new(alloc);
    push_above(dim, node, &mut places)?;
    let place = dim.place(node);
    let end = end_of(dim, node, place);
    if places.len() as u64 + u64::from(end - place - 1) > most {
        return Ok(None);
    }
    push_run(place + 1, end, &mut places)?;
    Ok(Some(places))
}

/// Appends the places of the nodes above a node, itself included, ascending.
fn push_above(dim: &Dim, node: u32, places: &mut Vec<u32>) -> Result<(), Memory>
    requires { node < length dim.now }
    ensures { OnOk result (places.new.items ≡ places.old.items ++ places_over dim.now node) }
{
    let _ = dim.len();
    if let Some(parent) = dim.parent(node) {
        push_above(dim, parent, places)?;
    }
    places.push(dim.place(node))?;
    Ok(())
}

/// Appends the places from the first up to an end.
fn push_run(first: u32, end: u32, places: &mut Vec<u32>) -> Result<(), Memory>
    requires { first ≤ end }
    ensures { OnOk result (places.new.items ≡ places.old.items ++ range_with_len first (end - first)) }
{
    for place in first..end {
        places.push(place)?;
    }
    Ok(())
}

/// The place after the last node under a node, found by halves: the nodes under it are one run.
fn end_of(dim: &Dim, node: u32, place: u32) -> u32
    requires node { node < length dim.now }
    requires place { place_of dim.now node ≡ Some place }
    ensures { AreUnderUpTo dim.now node place result }
{
    let mut high = dim.len();
    let mut low = place + 1;
    while low < high {
        let middle = low + (high - low) / 2;
        if dim.is_under(dim.at(middle), node) {
            low = middle + 1;
        } else {
            high = middle;
        }
    }
    low
}
