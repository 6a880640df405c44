//! What the verdict means, as laws.

ghost use Rattle.cm_verdict.specs.Laws.{FoundIsLive, FoundIsFramed, FramedIsFound};
ghost use Rattle.cm_verdict.specs.Laws.{VerdictStands, StandsInVerdict};

use cm_layout::{frames_are_matched, rows_are_apart, rows_stay_live};

/// What is found in a file without its records are live rows that keep the rules at the number of
/// the last command, so that they can be taken one after another. Their records may lie anywhere.
pub fn found_is_live()
    ensures { FoundIsLive }
{
    rows_are_apart();
    rows_stay_live();
}

/// What is found in a file without its records is what the file frames: its sizes, the live rows,
/// each class with the words of its record, and the number of the last command; with the half that
/// counts, its head, and where its groups end. It is found exactly if the file frames something and
/// its records lie in whole roots.
pub fn found_is_framed()
    ensures framed { FoundIsFramed }
    ensures found { FramedIsFound }
{
    frames_are_matched();
    rows_are_apart();
}

/// The verdict on a file is Ok exactly if the file stands for a cache. It then says for which
/// state, arenas and number. It is a function of the file's contents, so there is at most one.
pub fn verdict_is_exact()
    ensures stands { VerdictStands }
    ensures ok { StandsInVerdict }
{
    found_is_framed();
}
