//! A fact about any file that holds a cache, as a law.

ghost use Rattle.cm_session.specs.Laws.{BeginsMachine};

/// Whichever cache a file holds, however it came there: [`open`](crate::open) continues from the
/// machine that begins with this cache.
pub fn held_cache_begins_machine()
    ensures { BeginsMachine }
{}
