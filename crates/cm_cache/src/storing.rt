//! Stores one group by its device calls.

ghost use Rattle.std.specs.Prelude.{◌≡◌, ◌<◌, ◌≤◌, IfSome, IfNone};
ghost use Rattle.cm_guards.specs.Calls.{LeavesOnly};
ghost use Rattle.cm_commit.specs.States.{CommitterState, TakesGroup};
ghost use Rattle.cm_cache.specs.Storing.{IsLeftBroken, IsCommittedGroup, IsUnderway, ShowsEither};
ghost use Rattle.cm_group.specs.Groups.{Handed};

use cm_commit::{Committer, Progress};
use cm_disk::Disk;
use cm_group::{Group, Receipt};

/// Stores a group that may come next. `None` if the device failed: then the committer is broken.
///
/// At each moment of the call a crash leaves what was committed before, or that with the whole
/// group.
pub fn store_group<D: Disk>(committer: &mut Committer<D>, group: Group) -> Option<Receipt>
    requires { TakesGroup committer.old group }
    ensures stored { IfSome result
        (λ r. IsCommittedGroup committer.old group r.number committer.new) }
    ensures left { IfNone result (IsLeftBroken committer.old group committer.new) }
    ensures any_moment { LeavesOnly D.view committer.old.disk committer.new.disk
        (ShowsEither committer.old group) }
    ensures later { D.view.failures committer.old.disk ≤ D.view.failures committer.new.disk }
    ensures cause { IfNone result (D.view.failures committer.old.disk < D.view.failures
        committer.new.disk) }
{
    match committer.offer(group) {
        Ok(()) => make_calls(committer),
        Err(_) => unreachable!(),
    }
}

/// Makes the device calls of the group that is under way.
fn make_calls<D: Disk>(committer: &mut Committer<D>) -> Option<Receipt>
    requires { (group : Handed) × IsUnderway committer.old group committer.old }
    ensures stored { IfSome result (λ r. (group : Handed)
        → IsUnderway committer.old group committer.old
        → IsCommittedGroup committer.old group r.number committer.new) }
    ensures left { IfNone result ((group : Handed) → IsUnderway committer.old group committer.old
        → IsLeftBroken committer.old group committer.new) }
    ensures any_moment { (group : Handed) → IsUnderway committer.old group committer.old
        → LeavesOnly D.view committer.old.disk committer.new.disk
        (ShowsEither committer.old group) }
    ensures later { D.view.failures committer.old.disk ≤ D.view.failures committer.new.disk }
    ensures cause { IfNone result (D.view.failures committer.old.disk < D.view.failures
        committer.new.disk) }
{
    committer.images();
    loop {
        match committer.advance() {
            Ok(progress) => match progress {
                Progress::Done(receipt) => return Some(receipt),
                Progress::Working => {}
                Progress::Trimmed(_) => unreachable!(),
                Progress::Idle => unreachable!(),
            },
            Err(_) => return None,
        }
    }
}
