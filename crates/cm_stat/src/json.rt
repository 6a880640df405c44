//! The report as one JSON object.

use crate::text::number_of;
use cm_statistics::{LoaderUse, OwnedChunk, Statistics, Usage};
use serde_json::{Value, json};
use std::alloc::{AllocError, Global};

fn usage_value(alloc: Global, usage: &Usage) -> Result<Value, AllocError> {
    json!(in alloc; {
        "classes": usage.classes,
        "chunks": usage.chunks,
        "owned": usage.owned,
        "used": usage.used,
        "free": (usage.free())
    })
}

fn orders_value(alloc: Global, orders: &[Usage]) -> Result<Value, AllocError> {
    let mut list = Vec::new(alloc);
    for usage in orders {
        list.push(usage_value(alloc, usage)?)?;
    }
    Ok(Value::Array(list))
}

/// A loader. Its name is a text of printable ASCII.
fn loader_value(alloc: Global, loader: &LoaderUse) -> Result<Value, AllocError> {
    let name = String::from_utf8_lossy(alloc, &loader.name)?;
    let usage = usage_value(alloc, &loader.usage)?;
    json!(in alloc; {"number": loader.number, "name": name, "usage": usage})
}

fn loaders_value(alloc: Global, loaders: &[LoaderUse]) -> Result<Value, AllocError> {
    let mut list = Vec::new(alloc);
    for loader in loaders {
        list.push(loader_value(alloc, loader)?)?;
    }
    Ok(Value::Array(list))
}

/// A chunk: places in words, sizes in bytes.
fn chunk_value(alloc: Global, owned: &OwnedChunk) -> Result<Value, AllocError> {
    json!(in alloc; {
        "loader": owned.loader,
        "root": (u64::from(owned.chunk.root)),
        "at": (u64::from(owned.chunk.at)),
        "order": (u64::from(owned.chunk.order)),
        "used": owned.used
    })
}

fn chunks_value(alloc: Global, chunks: &[OwnedChunk]) -> Result<Value, AllocError> {
    let mut list = Vec::new(alloc);
    for owned in chunks {
        list.push(chunk_value(alloc, owned)?)?;
    }
    Ok(Value::Array(list))
}

fn sizes_value(alloc: Global, found: &Statistics) -> Result<Value, AllocError> {
    json!(in alloc; {
        "top": (u64::from(found.geometry.top())),
        "roots": (u64::from(found.geometry.roots())),
        "slots": (u64::from(found.geometry.slots()))
    })
}

fn journal_value(alloc: Global, found: &Statistics) -> Result<Value, AllocError> {
    let journal = &found.journal;
    json!(in alloc; {
        "version": (u64::from(journal.version)),
        "half": (u64::from(number_of(journal.half))),
        "epoch": journal.epoch,
        "slots": (u64::from(journal.used)),
        "left": (u64::from(journal.left)),
        "rows": (journal.live as u64),
        "row_limit": (journal.live_limit as u64)
    })
}

fn region_value(alloc: Global, found: &Statistics) -> Result<Value, AllocError> {
    let largest = match found.largest_free {
        Some(order) => Value::from(u64::from(order)),
        None => Value::Null,
    };
    json!(in alloc; {
        "bytes": found.bytes,
        "trimmed": found.trimmed,
        "roots": (u64::from(found.roots)),
        "used_roots": (u64::from(found.used_roots)),
        "largest_free_order": largest
    })
}

/// The whole report, and the end of its line.
pub fn spell(alloc: Global, found: &Statistics) -> Result<Vec<u8>, AllocError> {
    let sizes = sizes_value(alloc, found)?;
    let journal = journal_value(alloc, found)?;
    let region = region_value(alloc, found)?;
    let usage = usage_value(alloc, &found.usage)?;
    let orders = orders_value(alloc, &found.orders)?;
    let loaders = loaders_value(alloc, &found.loaders)?;
    let chunks = chunks_value(alloc, &found.chunks)?;
    let whole = json!(in alloc; {
        "number": found.number,
        "sizes": sizes,
        "journal": journal,
        "region": region,
        "usage": usage,
        "orders": orders,
        "loaders": loaders,
        "chunks": chunks
    })?;
    let mut text = whole.to_vec(alloc)?;
    text.push(b'\n')?;
    Ok(text)
}
