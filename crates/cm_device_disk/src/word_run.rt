//! Words that were read from a device and not yet taken.
ghost use Rattle.std.specs.Prelude.{◌≡◌, ◌≤◌, List, ℕ, length, IfSome, is_some, nat_lt, true};
ghost use Rattle.std.specs.Prelude.{false, if◌then◌else◌};
ghost use Rattle.std.specs.List.{All};
ghost use Rattle.std.specs.List.Sorted.{IsPartitionPoint};
ghost use Rattle.cm_words.specs.Words.{words_of};
ghost use Rattle.cm_disk.specs.Calls.{words_in};
ghost use Rattle.cm_device_disk.specs.Runs.{IsOf, InOrder, is_run, has_words, emptied, without};

use cm_disk::WordRange;
use cm_words::WordBuf;

/// The words that a device has from a place on, until they are taken.
#[derive(Drop)]
pub struct WordRun {
    pub at: u64,
    pub words: Option<WordBuf>,
}

impl WordRun {
    // Takes its words if they are those of the range.
    fn take(&mut self, range: WordRange) -> Option<WordBuf>
        ensures exactly { is_some result ≡ is_run range.at range.count self.old }
        ensures rest { self.new ≡ (if is_some result then emptied self.old else self.old) }
        ensures taken { (contents : List ℕ) → IsOf contents self.old → IfSome result (λ w. w
            ≡ words_of (words_in range.at range.count contents) range.count) }
        ensures left { (contents : List ℕ) → IsOf contents self.old → IsOf contents self.new }
    {
        if self.at != range.at {
            return None;
        }
        match &self.words {
            Some(words) if words.len() == range.count => self.words.take(),
            _ => None,
        }
    }
}

// The index of the first run that doesn't begin before the place, if they are in order.
fn first_from(runs: &[WordRun], at: u64) -> usize
    ensures within { result ≤ length runs.now }
    ensures first { InOrder runs.now → IsPartitionPoint (λ (r : WordRun). nat_lt r.at at ≡ true)
        (λ (r : WordRun). nat_lt r.at at ≡ false) runs.now result }
{
    runs.partition_point(|run| run.at < at)
}

/// Takes the words of a range, if they were read as one run.
pub(crate) fn take_range(runs: &mut Vec<WordRun>, range: WordRange) -> Option<WordBuf>
    requires { InOrder runs.old.items }
    ensures exactly { is_some result ≡ has_words range.at range.count runs.old.items }
    ensures rest { runs.new.items
        ≡ (if is_some result then without range.at runs.old.items else runs.old.items) }
    ensures in_order { InOrder runs.new.items }
    ensures taken { (contents : List ℕ) → All (IsOf contents) runs.old.items → IfSome result (λ w. w
        ≡ words_of (words_in range.at range.count contents) range.count) }
    ensures left { (contents : List ℕ) → All (IsOf contents) runs.old.items
        → All (IsOf contents) runs.new.items }
{
    let index = first_from(runs, range.at);
    if index >= runs.len() {
        return None;
    }
    runs[index].take(range)
}
