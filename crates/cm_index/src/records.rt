//! Records as what is kept of classes.

ghost use Rattle.std.specs.Prelude.{◌≡◌};
ghost use Rattle.std.specs.Arc.{arc_value};
ghost use Rattle.std.specs.Ordering.{nat_cmp};
ghost use Rattle.std.specs.Cmp.Lexicographic.{slice_cmp};
ghost use Rattle.cm_record.specs.Names.{class_name_in};
ghost use Rattle.cm_index.specs.Index.{rank};
ghost use Rattle.cm_index.specs.Marks.{mark_of};

use crate::kept::{Kept, mark_of, seed_of};
use cm_record::{Record, words_tell_name};
use std::alloc::Global;
use std::cmp::Ordering;
use std::sync::Arc;

impl Kept for Arc<Record, Global> {
    ghost name = { λ class. class_name_in (arc_value class) };

    ghost mark = { mark_of };

    fn cmp_name(&self, other: &Arc<Record, Global>) -> Ordering {
        cmp_records(self, other)
    }

    fn cmp_name_to(&self, bytes: &[u8]) -> Ordering {
        cmp_record_to(self, bytes)
    }

    fn fingerprint(&self, owner: Option<u64>) -> u32 {
        record_mark(self, owner)
    }

    fn fingerprint_of(owner: Option<u64>, bytes: &[u8]) -> u32 {
        mark_of(owner, bytes)
    }
}

fn cmp_records(one: &Record, other: &Record) -> Ordering
    ensures { result ≡ slice_cmp nat_cmp (class_name_in one.now) (class_name_in other.now) }
{
    words_tell_name();
    one.invariant_holds();
    other.invariant_holds();
    one.cmp_name(other)
}

fn cmp_record_to(class: &Record, bytes: &[u8]) -> Ordering
    ensures { result ≡ slice_cmp nat_cmp (class_name_in class.now) bytes.now }
{
    words_tell_name();
    class.invariant_holds();
    class.cmp_name_to(bytes)
}

#[tactic(auto, unfolding(crate::specs::Marks::mark_of))]
fn record_mark(class: &Record, owner: Option<u64>) -> u32
    ensures { result ≡ mark_of (rank owner) (class_name_in class.now) }
{
    words_tell_name();
    class.invariant_holds();
    class.name_fingerprint(seed_of(owner))
}
