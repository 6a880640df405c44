//! What the replies of a world say about its disk, as a law.

ghost use Rattle.cm_world.specs.Laws.{CallsAreTold, FaultsStrike, FailuresHaveCause};

/// Exactly one device call is made if the reply is `Working`, `Done`, `Trimmed` or `DeviceFailed`,
/// and none by any other event that keeps the file open. If a fault is armed the next call fails;
/// without one, a call fails only if an allocation failed in it.
pub fn replies_tell_of_calls()
    ensures told { CallsAreTold }
    ensures strikes { FaultsStrike }
    ensures cause { FailuresHaveCause }
{}
