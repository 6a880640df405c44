//! Bytes in the words of a record, eight per word.
ghost use Rattle.std.specs.Prelude.{◌≡◌, ◌↔◌, ℕ, List, IfOk, IsTrue};
ghost use Rattle.cm_record_layout.specs.Packing.{packed};
ghost use Rattle.cm_record.specs.Runs.{IsRunOf, HasRun};

use cm_record_layout::{run_words, words_from};
use cm_record_reading::{RecordFault, read_run};
use std::alloc::{AllocError, Global};

/// Where some bytes are: a Utf8, a name, or the content of an attribute.
#[derive(Clone, Copy, Debug)]
pub(crate) struct Run {
    /// The word at which its bytes begin.
    pub(crate) at: usize,
    /// How many bytes there are.
    pub(crate) len: usize,
}

/// The bytes of a run.
pub(crate) fn run_bytes(alloc: Global, words: &[u64], run: Run) -> Result<Vec<u8>, AllocError>
    requires { HasRun words.now run }
    ensures { (bytes : List ℕ) → IsRunOf words.now run bytes → IfOk result
        (λ name. name.items ≡ bytes) }
{
    match read_run(alloc, run.len, words_from(words, run.at)) {
        Ok((bytes, _)) => Ok(bytes),
        Err(RecordFault::NoMemory) => Err(AllocError),
        Err(RecordFault::NotARecord) => unreachable!(),
    }
}

/// The words of a run.
pub(crate) fn run_slice(words: &[u64], run: Run) -> &[u64]
    requires { HasRun words.now run }
    ensures { (bytes : List ℕ) → IsRunOf words.now run bytes → result.now ≡ packed bytes }
{
    &words_from(words, run.at)[..run_words(run.len) as usize]
}

/// Whether two runs have the same bytes.
pub(crate) fn is_same_run(words: &[u64], run: Run, others: &[u64], other: Run) -> bool
    requires one { HasRun words.now run }
    requires two { HasRun others.now other }
    ensures { (xs ys : List ℕ) → IsRunOf words.now run xs → IsRunOf others.now other ys
        → IsTrue result ↔ (xs ≡ ys) }
{
    run.len == other.len && run_slice(words, run) == run_slice(others, other)
}
