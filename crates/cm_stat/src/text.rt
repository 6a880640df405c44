//! The report as lines.

use cm_layout::Half;
use cm_lines::escape_into;
use cm_statistics::{LoaderUse, Statistics, Usage};
use std::alloc::{AllocError, Global};

/// The number of a half.
pub fn number_of(half: Half) -> u8 {
    match half {
        Half::Zero => 0,
        Half::One => 1,
    }
}

/// Classes, chunks and bytes.
fn usage_text(alloc: Global, usage: &Usage) -> Result<String, AllocError> {
    format!(in alloc;
        "classes {} chunks {} owned {} used {} free {}\n",
        usage.classes,
        usage.chunks,
        usage.owned,
        usage.used,
        usage.free()
    )
}

/// The lines on the file, its journal and its region.
fn file_text(alloc: Global, found: &Statistics) -> Result<String, AllocError> {
    let geometry = found.geometry;
    let journal = &found.journal;
    format!(in alloc;
        "sizes top {} roots {} slots {}\n\
         file bytes {} after trim {}\n\
         journal version {} half {} epoch {} slots {} left {}\n\
         rows slots {} of {}\n\
         roots {} used {} of {}\n",
        geometry.top(),
        geometry.roots(),
        geometry.slots(),
        found.bytes,
        found.trimmed,
        journal.version,
        number_of(journal.half),
        journal.epoch,
        journal.used,
        journal.left,
        journal.live,
        journal.live_limit,
        found.roots,
        found.used_roots,
        geometry.roots()
    )
}

fn free_text(alloc: Global, largest: Option<u32>) -> Result<String, AllocError> {
    match largest {
        Some(order) => format!(in alloc; "largest free chunk order {order}\n"),
        None => format!(in alloc; "largest free chunk none\n"),
    }
}

/// The lines on chunks, one for each order that has any.
fn push_orders(alloc: Global, lines: &mut Vec<u8>, orders: &[Usage]) -> Result<(), AllocError> {
    for (order, usage) in orders.iter().enumerate() {
        if usage.chunks > 0 {
            lines.extend_from_slice(format!(in alloc; "order {order} ")?.as_bytes())?;
            lines.extend_from_slice(usage_text(alloc, usage)?.as_bytes())?;
        }
    }
    Ok(())
}

fn push_loaders(
    alloc: Global,
    lines: &mut Vec<u8>,
    loaders: &[LoaderUse],
) -> Result<(), AllocError> {
    for loader in loaders {
        lines.extend_from_slice(b"loader ")?;
        escape_into(lines, &loader.name)?;
        lines.extend_from_slice(format!(in alloc; " number {} ", loader.number)?.as_bytes())?;
        lines.extend_from_slice(usage_text(alloc, &loader.usage)?.as_bytes())?;
    }
    Ok(())
}

/// The whole report.
pub fn spell(alloc: Global, found: &Statistics) -> Result<Vec<u8>, AllocError> {
    let first = format!(in alloc;
        "ok loaders {} number {} ",
        found.loaders.len(),
        found.number
    )?;
    let mut lines = first.into_bytes();
    lines.extend_from_slice(usage_text(alloc, &found.usage)?.as_bytes())?;
    lines.extend_from_slice(file_text(alloc, found)?.as_bytes())?;
    lines.extend_from_slice(free_text(alloc, found.largest_free)?.as_bytes())?;
    push_orders(alloc, &mut lines, &found.orders)?;
    push_loaders(alloc, &mut lines, &found.loaders)?;
    Ok(lines)
}
