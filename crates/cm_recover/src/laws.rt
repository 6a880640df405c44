//! What a new file is, and which files are upgraded, as laws.

ghost use Rattle.cm_recover.specs.Laws.{ShutIsNoCache, NewIsEmpty, NewIsNewest, GateTurns};
ghost use Rattle.cm_recover.specs.Laws.{NewestIsNotOlder};

use cm_layout::contents_determine_head;
use cm_verdict::{found_is_framed, verdict_is_exact};

/// A file whose superblock isn't open is no cache, whatever else it holds. A new file stands for
/// the empty cache, in a half of the version that is written now. The byte of its superblock's gate
/// alone makes it one: with any other byte there it is no cache.
pub fn new_file_is_empty()
    ensures shut { ShutIsNoCache }
    ensures empty { NewIsEmpty }
    ensures newest { NewIsNewest }
    ensures gate { GateTurns }
{}

/// A file whose half that counts is of the version that is written now isn't upgraded when it is
/// opened: it is only synced and read.
pub fn newest_is_not_older()
    ensures { NewestIsNotOlder }
{
    contents_determine_head();
    found_is_framed();
    verdict_is_exact();
}
