//! The tag of files.

ghost use Rattle.std.specs.Prelude.{◌≡◌, ◌++◌, take, IfOk, OnErr, OnOk};
ghost use Rattle.std.specs.String.{string_bytes};
ghost use Rattle.hex.specs.Hex.{encode_lower};
ghost use Rattle.cm_tag.specs.Texts.{of_nothing, class_text, IsWith, IsWithJar};

use crate::jar_text::{with_entries, with_other};
use cm_jar::{Jar, JarFault};
use sha2::{Digest, Sha256};
use std::alloc::{AllocError, Global};
use std::marker::Model;

/// How many bytes of the digest the digits spell.
const SHOWN: usize = 8;

/// The digest of files that were added one after another. It depends on their contents and on
/// their order: of a class file on all bytes, of a jar on the names, CRC-32 and sizes of its
/// entries, as its directory declares them.
#[derive(Clone, Copy, Debug, PartialEq, Eq)]
pub struct Tag {
    digest: [u8; 32],
}

impl Model for Tag {
    ghost use Rattle.std.specs.Prelude.{ℕ, List};

    ghost Value = { List ℕ };

    ghost view = { λ t. t.digest };

    ghost inverse = { λ d. record { digest = d } };
}

impl Tag {
    /// The tag of no file: 32 zeros.
    pub const fn new() -> Tag
        ensures { result ≡ of_nothing }
    {
        Tag { digest: [0; 32] }
    }

    /// The tag with this digest.
    pub fn from_digest(digest: [u8; 32]) -> Tag
        ensures { result ≡ digest }
    {
        Tag { digest }
    }

    /// Its digest, from which more files can be added later.
    pub fn digest(&self) -> [u8; 32]
        ensures { result ≡ self.now }
    {
        self.digest
    }

    /// Adds a class file: SHA-256 (FIPS 180-4) of the digest so far, a `C`, and the bytes.
    pub fn add_class(&mut self, bytes: &[u8])
        ensures { IsWith self.old (class_text bytes.now) self.new }
    {
        let mut hasher = Sha256::new_with_prefix(self.digest);
        hasher.update(b"C");
        hasher.update(bytes);
        self.digest = hasher.finalize();
    }

    /// Adds a jar: SHA-256 of the digest so far, a `J`, and of each entry of its directory the
    /// name, the CRC-32 and the size. Of a file that is no jar an `X` and all its bytes.
    ///
    /// # Errors
    /// An allocation failed, and the tag is as it was.
    pub fn add_jar(&mut self, alloc: Global, bytes: &[u8]) -> Result<(), AllocError>
        ensures added { OnOk result (IsWithJar self.old bytes.now self.new) }
        ensures same { OnErr result (self.new ≡ self.old) }
    {
        self.digest = match Jar::read(alloc, bytes) {
            Ok(jar) => with_entries(self.digest, jar.entries()),
            Err(JarFault::NoMemory) => return Err(AllocError),
            Err(_) => with_other(self.digest, bytes),
        };
        Ok(())
    }

    /// Its first eight bytes as 16 hexadecimal digits, in lower case.
    ///
    /// # Errors
    /// An allocation failed.
    pub fn digits(&self, alloc: Global) -> Result<String, AllocError>
        ensures { IfOk result (λ text. string_bytes text ≡ encode_lower (take 8 self.now)) }
    {
        hex::encode(alloc, &self.digest[..SHOWN])
    }
}
