//! The places of a record's first words (docs/RECORD.md).

/// The head's word with the number of words in the record.
pub const HEAD_TOTAL: usize = 0;

/// The head's word with the flags, this_class, super_class and the interface count.
pub const HEAD_CLASS: usize = 1;

/// The head's word with the pool's count and the counts of fields, of methods and of the class's
/// attributes.
pub const HEAD_COUNTS: usize = 2;

/// The head's word with the offset of the directory.
pub const HEAD_DIRECTORY_AT: usize = 3;

/// The head's word with the offset of the interfaces.
pub const HEAD_INTERFACES_AT: usize = 4;

/// The head's word with the offset of the members.
pub const HEAD_MEMBERS_AT: usize = 5;

/// The head's word with the offset of the attributes.
pub const HEAD_ATTRIBUTES_AT: usize = 6;

/// The head's word with the offset of the runs.
pub const HEAD_RUNS_AT: usize = 7;

/// The offset of the directory, right after the head. Its first word, that of slot 0, is 0.
pub const DIRECTORY_AT: usize = 8;

/// The offset of the directory's word of slot 1, at which the constants begin.
pub const SLOT_1_AT: usize = 9;
