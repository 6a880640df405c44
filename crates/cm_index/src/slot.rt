//! Places of live and dead items.

/// What is at a place, and whether it lives. A dead item keeps its place until all such are swept
/// out at once.
#[derive(Debug, Drop)]
pub struct BookSlot<T> {
    pub item: T,
    pub live: bool,
}
