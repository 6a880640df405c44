//! Sizes of a cache that hold what was found.

use crate::arguments::Wanted;
use cm_arguments::{ROOTS, SLOTS, TOP};
use cm_found_classes::{Place, class_entries};
use cm_jar::Jar;
use cm_pool::Geometry;
use std::fs::{self, File, Files};

/// The bytes of a root of order 0.
const SMALLEST_ROOT: u64 = 1024;

/// A class's record hardly ever has as many bytes for each byte of the class.
const RECORD_SHARE: u64 = 2;

/// How many records there are, how many bytes they have together, and the largest of them.
#[derive(Clone, Copy, Debug)]
pub struct Records {
    count: u64,
    bytes: u64,
    largest: u64,
}

/// A region's sizes: the order of a root, and how many roots there may be.
#[derive(Clone, Copy, Debug)]
pub struct Region {
    pub top: u32,
    pub roots: u32,
}

impl Records {
    /// No record.
    pub const NONE: Records = Records {
        count: 0,
        bytes: 0,
        largest: 0,
    };

    /// Whether there is none.
    pub fn is_empty(&self) -> bool {
        self.count == 0
    }

    /// Adds a record of this many bytes.
    pub fn add(&mut self, bytes: u64) {
        self.count = self.count.saturating_add(1);
        self.bytes = self.bytes.saturating_add(bytes);
        self.largest = self.largest.max(bytes);
    }

    /// Adds the record of a class of this many bytes, as it may be.
    fn add_class(&mut self, bytes: u64) {
        self.add(bytes.saturating_mul(RECORD_SHARE));
    }
}

/// What the records of all places may be. A jar that can't be read counts for nothing: the import
/// reports it.
pub fn count_records<R>(rt: &R, places: &[Place]) -> Records
where
    R: Files<File = File> + AllocGlobal,
{
    let mut records = Records::NONE;
    for place in places {
        match place {
            Place::ClassFile(_, len) => records.add_class(*len),
            Place::Jar(path, _) => count_entries(rt, path.as_str(), &mut records),
        }
    }
    records
}

/// Counts the classes of a jar too.
fn count_entries<R>(rt: &R, path: &str, records: &mut Records)
where
    R: Files<File = File> + AllocGlobal,
{
    let Ok(bytes) = fs::read(rt, path) else {
        return;
    };
    let Ok(jar) = Jar::read(rt.alloc(), &bytes) else {
        return;
    };
    let Ok(entries) = class_entries(rt.alloc(), &jar) else {
        return;
    };
    for entry in &entries {
        records.add_class(u64::from(entry.size()));
    }
}

/// The usual number, or as many as are needed, if there may be as many.
fn at_least(usual: u32, needed: u64, most: u32) -> Option<u32> {
    match u32::try_from(needed) {
        Ok(needed) if needed <= most => Some(usual.max(needed)),
        _ => None,
    }
}

/// The slots of half a journal that hold these records and their loader.
pub fn slots_for(records: &Records) -> Option<u32> {
    // Half of the slots may be live, and a loader of a long name takes two.
    let slots = records.count.saturating_add(2).saturating_mul(2);
    at_least(SLOTS.usual, slots, SLOTS.most)
}

/// The roots of an order that hold these records, in a new file and one loader.
fn roots_for(records: &Records, top: u32) -> Option<u32> {
    let root = SMALLEST_ROOT << top.min(TOP.most);
    if root < records.largest {
        return None;
    }
    // Each chunk but the last has less room left than the next record takes. What is free before
    // the last root is less than one chunk.
    let roots = (records.bytes.saturating_mul(2) / root.max(1)).saturating_add(3);
    at_least(ROOTS.usual, roots, ROOTS.most)
}

/// A region that holds these records: its roots are as small as they may be, but of the usual order
/// at least.
pub fn region_for(records: &Records) -> Option<Region> {
    for top in TOP.usual..TOP.most + 1 {
        if let Some(roots) = roots_for(records, top) {
            return Some(Region { top, roots });
        }
    }
    None
}

/// The sizes that are wanted. Those that aren't given hold the records, as far as the limits allow.
/// `None` if one is outside its limits.
pub fn sizes_for(wanted: &Wanted, records: &Records) -> Option<Geometry> {
    let top = match (wanted.top, region_for(records)) {
        (Some(top), _) => top,
        (None, Some(region)) => region.top,
        (None, None) => TOP.most,
    };
    let roots = roots_for(records, top).unwrap_or(ROOTS.most);
    let slots = slots_for(records).unwrap_or(SLOTS.most);
    Geometry::new(
        top,
        wanted.roots.unwrap_or(roots),
        wanted.slots.unwrap_or(slots),
    )
}
