//! Changes of the facts' regions: which codes they name, and what they make of the ids at one of them.
ghost use Rattle.std.specs.Prelude.{◌≡◌, ◌∷◌, [], ◌++◌, ◌||◌, ◌==◌, ℕ, IfOk, OnOk, filter, if◌then◌else◌, map, not, ◌&&◌};
ghost use Rattle.std.specs.List.{flat_map, list_any};
ghost use Rattle.std.specs.Option.{option_to_list};
ghost use Rattle.cube_model.specs.Cells.{is_among};
ghost use Rattle.region_index.specs.Changes.{with_id};
ghost use Rattle.region_index.specs.Content.{AreAscending, holds_ids, ids_at};

use arrayvec::ArrayVec;
use cube_base::{Ids, Memory};
use staged_map::Staged;
use std::alloc::{AllocError, Global};

/// Sorts the numbers, and keeps each once. It takes no memory.
pub fn sort_distinct(mut ids: Vec<u64>) -> Vec<u64>
    ensures ascending { AreAscending result.items }
    ensures same { (id : ℕ) → is_among result.items id ≡ is_among ids.items id }
{
    ids.sort_unstable();
    ids.dedup();
    ids
}

/// Equal pairs.
pub fn copy_pairs(alloc: Global, pairs: &[(u64, u64)]) -> Result<Vec<(u64, u64)>, AllocError>
    ensures { IfOk result (λ copy. copy.items ≡ pairs.now) }
{
    pairs.iter().copied().collect(alloc)
}

/// The codes of pairs, one after the other.
fn codes_in(
    alloc: Global,
    puts: &[(u64, u64)],
    drops: &[(u64, u64)],
) -> Result<Vec<u64>, AllocError>
    ensures { IfOk result (λ codes. codes.items ≡ map (λ pair. pair.0) (puts.now ++ drops.now)) }
{
    puts.iter().chain(drops).map(|pair| pair.0).collect(alloc)
}

/// The codes that changes name, ascending, each once.
pub fn changed_codes(
    alloc: Global,
    puts: &[(u64, u64)],
    drops: &[(u64, u64)],
) -> Result<Vec<u64>, Memory>
    ensures ascending { IfOk result (λ codes. AreAscending codes.items) }
    ensures named { IfOk result (λ codes. (code : ℕ) → is_among codes.items code ≡ list_any (λ pair. pair.0 == code) (puts.now ++ drops.now)) }
{
    Ok(sort_distinct(codes_in(alloc, puts, drops)?))
}

/// The codes that these changes name, ascending, each once.
pub fn codes_of_two(put: Option<(u64, u64)>, dropped: Option<(u64, u64)>) -> ArrayVec<u64, 2>
    ensures ascending { AreAscending result.items }
    ensures named { (code : ℕ) → is_among result.items code ≡ list_any (λ pair. pair.0 == code) (option_to_list put ++ option_to_list dropped) }
{
    let mut codes = ArrayVec::new();
    match (put, dropped) {
        (Some((code, _)), Some((other, _))) => push_both(&mut codes, code, other),
        (Some((code, _)), None) | (None, Some((code, _))) => codes.push(code),
        (None, None) => {}
    }
    codes
}

/// Puts two numbers into an empty list, ascending, each once.
fn push_both(codes: &mut ArrayVec<u64, 2>, code: u64, other: u64)
    requires { codes.old.items ≡ [] }
    ensures ascending { AreAscending codes.new.items }
    ensures both { (c : ℕ) → is_among codes.new.items c ≡ ((code == c) || (other == c)) }
{
    codes.push(code.min(other));
    if code != other {
        codes.push(code.max(other));
    }
}

/// The ids of pairs by their code, in the order of the pairs.
pub fn by_code(alloc: Global, pairs: &[(u64, u64)]) -> Result<Staged<Ids>, Memory>
    ensures { IfOk result (λ groups. (code : ℕ) → ids_at groups code ≡ map (λ pair. pair.1) (filter (λ pair. pair.0 == code) pairs.now)) }
{
    let mut groups = Staged::new(alloc);
    for (code, id) in pairs {
        add(alloc, &mut groups, *code, *id)?;
    }
    Ok(groups)
}

/// Puts an id after those at a code.
fn add(alloc: Global, groups: &mut Staged<Ids>, code: u64, id: u64) -> Result<(), Memory>
    ensures { OnOk result ((c : ℕ) → ids_at groups.new c ≡ ids_at groups.old c ++ (if code == c then id ∷ [] else [])) }
{
    let mut ids = groups.remove(code).unwrap_or(Ids::new(alloc));
    ids.push(id)?;
    groups.reserve(&[code])?;
    let _ = groups.set(code, ids);
    Ok(())
}

/// The ids at a code.
pub fn at_code(groups: &Staged<Ids>, code: u64) -> &[u64]
    ensures { result.now ≡ ids_at groups.now code }
{
    match groups.get(code) {
        Some(ids) => ids.as_slice(),
        None => &[],
    }
}

/// Whether some id is held at a code.
pub fn holds_ids(groups: &Staged<Ids>, code: u64) -> bool
    ensures { result ≡ holds_ids groups.now code }
{
    !at_code(groups, code).is_empty()
}

/// The ids at codes, those of one code after those of the one before.
pub fn at_codes(alloc: Global, groups: &Staged<Ids>, codes: &[u64]) -> Result<Vec<u64>, Memory>
    ensures { IfOk result (λ ids. ids.items ≡ flat_map (ids_at groups.now) codes.now) }
{
    let mut ids = Vec::new(alloc);
    for code in codes {
        ids.extend_from_slice(at_code(groups, *code))?;
    }
    Ok(ids)
}

/// The ids with more after them.
fn append_ids(mut ids: Vec<u64>, more: &[u64]) -> Result<Vec<u64>, Memory>
    ensures { IfOk result (λ all. all.items ≡ ids.items ++ more.now) }
{
    ids.extend_from_slice(more)?;
    Ok(ids)
}

/// Equal ids, ascending, each once.
pub fn ascending_copy(alloc: Global, ids: &[u64]) -> Result<Vec<u64>, Memory>
    ensures ascending { IfOk result (λ copy. AreAscending copy.items) }
    ensures same { IfOk result (λ copy. (id : ℕ) → is_among copy.items id ≡ is_among ids.now id) }
{
    Ok(sort_distinct(append_ids(Vec::new(alloc), ids)?))
}

/// Whether an id is among ascending ones. It takes no memory.
fn is_in(ids: &[u64], id: u64) -> bool
    requires { AreAscending ids.now }
    ensures { result ≡ is_among ids.now id }
{
    ids.binary_search(&id).is_ok()
}

/// The ids that are not among ascending ones.
fn ids_without(alloc: Global, ids: &[u64], dropped: &[u64]) -> Result<Vec<u64>, Memory>
    requires { AreAscending dropped.now }
    ensures { IfOk result (λ kept. kept.items ≡ filter (λ id. not (is_among dropped.now id)) ids.now) }
{
    if dropped.is_empty() {
        return append_ids(Vec::new(alloc), ids);
    }
    let mut kept = Vec::new(alloc);
    for id in ids {
        if !is_in(dropped, *id) {
            kept.push(*id)?;
        }
    }
    Ok(kept)
}

/// The ids but for the dropped ones, and with those that are put, ascending, each once.
pub fn change_ids(
    alloc: Global,
    ids: &[u64],
    put: &[u64],
    dropped: &[u64],
) -> Result<Vec<u64>, Memory>
    requires { AreAscending dropped.now }
    ensures ascending { IfOk result (λ changed. AreAscending changed.items) }
    ensures members { IfOk result (λ changed. (id : ℕ) → is_among changed.items id ≡ (is_among put.now id || (is_among ids.now id && not (is_among dropped.now id)))) }
{
    Ok(sort_distinct(append_ids(ids_without(alloc, ids, dropped)?, put)?))
}

/// Takes an id out of ascending ones, if it is among them. It takes no memory.
fn take_out(ids: &mut Vec<u64>, id: Option<u64>)
    requires { AreAscending ids.old.items }
    ensures ascending { AreAscending ids.new.items }
    ensures members { (other : ℕ) → is_among ids.new.items other ≡ (is_among ids.old.items other && not (is_among (option_to_list id) other)) }
{
    if let Some(id) = id {
        take_out_one(ids, id);
    }
}

/// The same of an id.
fn take_out_one(ids: &mut Vec<u64>, id: u64)
    requires { AreAscending ids.old.items }
    ensures { ids.new.items ≡ filter (λ other. not (other == id)) ids.old.items }
{
    match ids.as_slice().binary_search(&id) {
        Ok(at) => {
            let _ = ids.remove(at);
        }
        Err(_) => {}
    }
}

/// Puts an id among ascending ones, if it is not there.
fn put_in(ids: &mut Vec<u64>, id: Option<u64>) -> Result<(), Memory>
    requires { AreAscending ids.old.items }
    ensures ascending { OnOk result (AreAscending ids.new.items) }
    ensures members { OnOk result ((other : ℕ) → is_among ids.new.items other ≡ (is_among (option_to_list id) other || is_among ids.old.items other)) }
{
    match id {
        Some(id) => put_in_one(ids, id),
        None => Ok(()),
    }
}

/// The same of an id.
fn put_in_one(ids: &mut Vec<u64>, id: u64) -> Result<(), Memory>
    requires { AreAscending ids.old.items }
    ensures { OnOk result (ids.new.items ≡ with_id id ids.old.items) }
{
    match ids.as_slice().binary_search(&id) {
        Err(at) => {
            ids.insert(at, id)?;
            Ok(())
        }
        Ok(_) => Ok(()),
    }
}

/// Equal ids, with room for one more.
fn copy_with_room(alloc: Global, ids: &[u64]) -> Result<Vec<u64>, Memory>
    ensures { IfOk result (λ copy. copy.items ≡ ids.now) }
{
    let copy = Vec::with_capacity(alloc, ids.len().saturating_add(1))?;
    append_ids(copy, ids)
}

/// Ascending ids without one of them, and with one that is put.
pub fn change_one(
    alloc: Global,
    ids: &[u64],
    put: Option<u64>,
    dropped: Option<u64>,
) -> Result<Vec<u64>, Memory>
    requires { AreAscending ids.now }
    ensures ascending { IfOk result (λ changed. AreAscending changed.items) }
    ensures members { IfOk result (λ changed. (id : ℕ) → is_among changed.items id ≡ (is_among (option_to_list put) id || (is_among ids.now id && not (is_among (option_to_list dropped) id)))) }
{
    let mut changed = copy_with_room(alloc, ids)?;
    take_out(&mut changed, dropped);
    put_in(&mut changed, put)?;
    Ok(changed)
}
