use thiserror::Error;

/// Why bytes are no class file. Places are byte offsets from 0.
#[derive(Clone, Copy, Debug, PartialEq, Eq, Error)]
pub enum ShapeFault {
    /// The bytes are a proper beginning of a class file.
    #[error("truncated")]
    Truncated,
    /// A class file of this length is a proper beginning of the bytes.
    #[error("trailing {0}")]
    Trailing(usize),
    /// Neither: class files begin with this many of the bytes, and none with one more.
    #[error("malformed {0}")]
    Malformed(usize),
    /// The bytes are a class file, and an allocation failed.
    #[error("memory")]
    NoMemory,
}
