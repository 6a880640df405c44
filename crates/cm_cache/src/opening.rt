//! What opening a file returns may be started as a cache.

ghost use Rattle.std.specs.Prelude.{ℕ, List};
ghost use Rattle.cm_recover.specs.Opened.{Opens};
ghost use Rattle.cm_cache.specs.Starting.{MayStart, base_of};

use cm_commit::Committer;
use cm_disk::Disk;
use cm_front::Front;
use cm_handover::opened_is_ahead;
use cm_record::words_tell_name;
use cm_verdict::{found_is_framed, found_is_live, verdict_is_exact};

/// What opening a file returns is what [`Cache::start`](crate::Cache::start) requires.
pub fn opened_may_start<D: Disk>(front: &Front, committer: &Committer<D>)
    ensures { (contents : List ℕ) → Opens contents front.now committer.now
        → MayStart (base_of committer.now) (D.view.failures committer.now.disk) D.view.failures
        front.now
        committer.now }
{
    opened_is_ahead();
    found_is_live();
    found_is_framed();
    verdict_is_exact();
    words_tell_name();
    front.invariant_holds();
}
