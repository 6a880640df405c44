//! Where slices are in memory, for C.

/// Where the first of these bytes is.
pub(crate) fn bytes_at(bytes: &[u8]) -> *const u8 {
    bytes.as_ptr()
}

/// Where the first of these words is.
pub(crate) fn words_at(words: &[u64]) -> *const u64 {
    words.as_ptr()
}
