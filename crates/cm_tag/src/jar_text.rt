//! The digest with a jar.

ghost use Rattle.std.specs.Prelude.{◌≡◌, ◌++◌, ℕ, List};
ghost use Rattle.sha2.specs.Hashers.{Holds256};
ghost use Rattle.cm_tag.specs.Texts.{entry_text, jar_text, other_text, IsWith};

use cm_jar::Entry;
use sha2::{Digest, Sha256};

/// Adds what the directory says of an entry.
fn add_entry(hasher: &mut Sha256, entry: &Entry<'_>)
    ensures { (m : List ℕ) → Holds256 hasher.old m
        → Holds256 hasher.new (m ++ entry_text entry.now) }
{
    hasher.update((entry.name().len() as u64).to_be_bytes());
    hasher.update(entry.name());
    hasher.update(entry.check().to_be_bytes());
    hasher.update(entry.size().to_be_bytes());
}

/// The digest with a jar of these entries.
pub(crate) fn with_entries(digest: [u8; 32], entries: &[Entry<'_>]) -> [u8; 32]
    ensures { IsWith digest (jar_text entries.now) result }
{
    let mut hasher = Sha256::new_with_prefix(digest);
    hasher.update(b"J");
    for entry in entries {
        add_entry(&mut hasher, entry);
    }
    hasher.finalize()
}

/// The digest with a file that is no jar.
pub(crate) fn with_other(digest: [u8; 32], bytes: &[u8]) -> [u8; 32]
    ensures { IsWith digest (other_text bytes.now) result }
{
    let mut hasher = Sha256::new_with_prefix(digest);
    hasher.update(b"X");
    hasher.update(bytes);
    hasher.finalize()
}
