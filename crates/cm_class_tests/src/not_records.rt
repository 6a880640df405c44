//! Words that are no record.
use crate::record_samples::{RECORD_A, with_word};
use cm_record::{Record, RecordFault};
use std::alloc::Global;

// A place in a record, and the word put there: a number of words, a section's place, slot 0, a tag,
// a run's place, an unused half word, bytes after the end of a run.
const WRONG: [(usize, u64); 10] = [
    (0, 0x11),
    (2, 4),
    (3, 9),
    (4, 0xc),
    (7, 0xe),
    (8, 1),
    (9, 0x0000_0002_0000_0006),
    (10, 0x0000_000e_0001_0001),
    (11, 0x0000_0004_0001_0007),
    (13, 0x0100_0041),
];

fn is_no_record(alloc: Global, words: &[u64]) -> bool {
    Record::read(alloc, words).err() == Some(RecordFault::NotARecord)
}

#[test]
fn other_words_are_no_record(rt: HostRuntime) {
    let alloc = rt.alloc();
    assert!(rt; is_no_record(alloc, &[]));
    assert!(rt; is_no_record(alloc, &RECORD_A[..15]));
    for (place, word) in &WRONG {
        assert!(rt;
            is_no_record(alloc, &with_word(*place, *word)),
            "word {place}"
        );
    }
}
