//! Lists of numbers as the blobs of a table: items of one size, big-endian.
use crate::fault::Fault;
use crate::reason::Reason;
use std::alloc::Global;

/// The blob of node numbers, four bytes each.
pub(crate) fn of_nodes(alloc: Global, nodes: &[u32]) -> Result<Vec<u8>, Fault> {
    let mut blob = Vec::with_capacity(alloc, nodes.len().saturating_mul(4))?;
    'nodes: for node in nodes {
        blob.extend_from_slice(&node.to_be_bytes())?;
    }
    Ok(blob)
}

/// The blob of column values, eight bytes each, in two's complement.
pub(crate) fn of_cols(alloc: Global, cols: &[i64]) -> Result<Vec<u8>, Fault> {
    let mut blob = Vec::with_capacity(alloc, cols.len().saturating_mul(8))?;
    'cols: for value in cols {
        blob.extend_from_slice(&value.to_be_bytes())?;
    }
    Ok(blob)
}

/// The blob of rows, sixteen bytes each: the cell and then the weight.
pub(crate) fn of_rows(alloc: Global, rows: &[(u64, u64)]) -> Result<Vec<u8>, Fault> {
    let mut blob = Vec::with_capacity(alloc, rows.len().saturating_mul(16))?;
    'rows: for (cell, weight) in rows {
        blob.extend_from_slice(&cell.to_be_bytes())?;
        blob.extend_from_slice(&weight.to_be_bytes())?;
    }
    Ok(blob)
}

/// The node numbers of a blob. A blob that ends within an item is a fault.
pub(crate) fn to_nodes(alloc: Global, blob: &[u8]) -> Result<Vec<u32>, Fault> {
    let (items, rest) = blob.as_chunks::<4>();
    if !rest.is_empty() {
        return Err(Fault::Outside(Reason::Row));
    }
    let mut nodes = Vec::with_capacity(alloc, items.len())?;
    'items: for item in items {
        nodes.push(u32::from_be_bytes(*item))?;
    }
    Ok(nodes)
}

/// The column values of a blob. A blob that ends within an item is a fault.
pub(crate) fn to_cols(alloc: Global, blob: &[u8]) -> Result<Vec<i64>, Fault> {
    let (items, rest) = blob.as_chunks::<8>();
    if !rest.is_empty() {
        return Err(Fault::Outside(Reason::Row));
    }
    let mut cols = Vec::with_capacity(alloc, items.len())?;
    'items: for item in items {
        cols.push(i64::from_be_bytes(*item))?;
    }
    Ok(cols)
}

/// The rows of a blob. A blob that ends within an item is a fault.
pub(crate) fn to_rows(alloc: Global, blob: &[u8]) -> Result<Vec<(u64, u64)>, Fault> {
    let (numbers, rest) = blob.as_chunks::<8>();
    let (items, odd) = numbers.as_chunks::<2>();
    if !rest.is_empty() || !odd.is_empty() {
        return Err(Fault::Outside(Reason::Row));
    }
    let mut rows = Vec::with_capacity(alloc, items.len())?;
    'items: for [cell, weight] in items {
        rows.push((u64::from_be_bytes(*cell), u64::from_be_bytes(*weight)))?;
    }
    Ok(rows)
}
