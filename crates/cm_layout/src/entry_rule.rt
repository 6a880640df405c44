//! The sorts of rules that entries keep.

/// Which sort of rule an entry, or a live row, breaks first.
#[derive(Clone, Copy, Debug, PartialEq, Eq)]
pub enum EntryRule {
    /// One on loaders, names, numbers, or how many rows there are.
    OnRows,
    /// One on chunks, offsets or sizes.
    OnChunks,
}
