//! Prepared classes as what is kept of live ones.

ghost use Rattle.cm_index.specs.Marks.{mark_of};
ghost use Rattle.cm_record.specs.Names.{class_name_in};

use crate::prepared::Prepared;
use cm_index::Kept;
use cm_record::Record;
use std::alloc::Global;
use std::cmp::Ordering;
use std::sync::Arc;

impl Kept for Prepared {
    ghost name = { class_name_in };

    ghost mark = { mark_of };

    fn cmp_name(&self, other: &Prepared) -> Ordering {
        match (self.short_name(), other.short_name()) {
            (Some(name), Some(other)) => name.cmp(other),
            _ => Kept::cmp_name(self.record(), other.record()),
        }
    }

    fn cmp_name_to(&self, bytes: &[u8]) -> Ordering {
        match self.short_name() {
            Some(name) => name.cmp(bytes),
            None => Kept::cmp_name_to(self.record(), bytes),
        }
    }

    fn fingerprint(&self, owner: Option<u64>) -> u32 {
        Kept::fingerprint(self.record(), owner)
    }

    fn fingerprint_of(owner: Option<u64>, bytes: &[u8]) -> u32 {
        <Arc<Record, Global> as Kept>::fingerprint_of(owner, bytes)
    }
}
