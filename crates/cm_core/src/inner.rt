//! What a handle leads to.

use cm_commands::Prepared;
use cm_deferred_disk::DeferredDisk;
use cm_record::Record;
use cm_stepped::{CallList, SteppedSession};
use std::alloc::Global;
use std::sync::Arc;

/// What a handle leads to.
#[derive(Drop)]
pub enum Inner {
    /// A cache.
    Cache(SteppedSession<DeferredDisk>),
    /// The calls that make a file, or bring it up to date.
    Calls(CallList),
    /// A class that is ready to be defined.
    Prepared(Prepared),
    /// A share of the record of a class.
    Record(Arc<Record, Global>),
    /// Names of loaders, or of classes.
    Names(Vec<Vec<u8>>),
}
