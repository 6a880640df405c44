// Why an arena has no place.
use thiserror::Error;

/// Why no place was found. Arena and pool are then unchanged.
#[derive(Clone, Copy, Debug, Drop, PartialEq, Eq, Error)]
pub enum PlaceRefusal {
    /// There are more words than a root chunk has.
    #[error("record too long")]
    RecordTooLong,
    /// No chunk that holds the words is free, and all roots are present.
    #[error("region full")]
    RegionFull,
    /// An allocation failed.
    #[error("memory")]
    NoMemory,
}
