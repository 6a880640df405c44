//! Names of loaders and of classes, some of them chosen so that they are slow to distinguish.

use cm_record::fingerprint;
use std::alloc::{AllocError, Global};

/// Names of one length, one after another.
#[derive(Drop)]
pub struct Names {
    bytes: Vec<u8>,
    length: usize,
    count: usize,
}

impl Names {
    /// No names yet, of this length.
    pub fn new(alloc: Global, length: usize) -> Names {
        let bytes = Vec::new(alloc);
        Names {
            bytes,
            length,
            count: 0,
        }
    }

    /// Adds a name of the length after the others.
    pub fn push(&mut self, name: &[u8]) -> Result<(), AllocError> {
        self.bytes.extend_from_slice(name)?;
        self.count = self.count.wrapping_add(1);
        Ok(())
    }

    /// How many bytes each has.
    pub fn length(&self) -> usize {
        self.length
    }

    pub fn count(&self) -> usize {
        self.count
    }

    /// The name at a place, counted cyclically; an empty one if there are none.
    pub fn get(&self, at: usize) -> &[u8] {
        let from = (at % self.count.max(1)).wrapping_mul(self.length);
        let to = from.wrapping_add(self.length);
        self.bytes.get(from..to).unwrap_or(&[])
    }
}

/// How class names are chosen.
#[derive(Clone, Copy, Debug, PartialEq, Eq)]
pub enum Naming {
    /// Names of eight letters.
    Short,
    /// Names with a long common beginning.
    Long,
    /// Names with the same fingerprint.
    Meeting,
    /// Names with the same fingerprint and a long common beginning.
    LongMeeting,
}

/// How many bytes a long beginning has.
const BEGINNING: usize = 1_000;

/// The byte that a long beginning consists of.
const FILLER: u8 = b'x';

/// The factor by which `cm_record::fingerprint` multiplies before each word of a name.
const STEP: u64 = 11_400_714_819_323_198_485;

/// The value before the last step of the fingerprint, for names that collide.
const MEETING: u64 = 1 << 63;

impl Naming {
    /// Its name in the output.
    pub fn name(self) -> &'static str {
        match self {
            Naming::Short => "short names",
            Naming::Long => "long names",
            Naming::Meeting => "meeting names",
            Naming::LongMeeting => "long meeting names",
        }
    }

    fn beginning(self) -> usize {
        match self {
            Naming::Short | Naming::Meeting => 0,
            Naming::Long | Naming::LongMeeting => BEGINNING,
        }
    }

    fn meets(self) -> bool {
        matches!(self, Naming::Meeting | Naming::LongMeeting)
    }

    /// How many bytes a name has.
    pub fn length(self) -> usize {
        let end = if self.meets() { 16 } else { 8 };
        self.beginning().wrapping_add(end)
    }
}

/// Eight letters that spell a number.
pub fn letters(number: u32) -> [u8; 8] {
    let mut letters = [b'a'; 8];
    let mut left = number;
    for letter in &mut letters {
        *letter = b'a' + (left % 16) as u8;
        left /= 16;
    }
    letters
}

/// Whether this byte may occur anywhere in a class's name.
fn may_stand(byte: u8) -> bool {
    (0x01..=0x7F).contains(&byte) && !matches!(byte, b'.' | b';' | b'[' | b'/')
}

/// The last eight bytes of a name that collides with the others, if a name may have them.
fn meeting_end(so_far: u64) -> Option<[u8; 8]> {
    let end = MEETING
        .wrapping_sub(so_far.wrapping_mul(STEP))
        .to_le_bytes();
    if end.iter().all(|byte| may_stand(*byte)) {
        Some(end)
    } else {
        None
    }
}

/// The value of a fingerprint after the beginning of a name.
fn behind_beginning(naming: Naming, loader: u64) -> u64 {
    let seed = loader.wrapping_add(1);
    let mut number = seed.wrapping_mul(STEP).wrapping_add(naming.length() as u64);
    for _word in 0..naming.beginning() / 8 {
        number = number
            .wrapping_mul(STEP)
            .wrapping_add(u64::from_le_bytes([FILLER; 8]));
    }
    number
}

/// Generates names for classes, each different from those before it.
#[derive(Drop)]
pub struct Namer {
    naming: Naming,
    /// The least number that the letters of the next name spell.
    next: u32,
}

impl Namer {
    pub fn new(naming: Naming) -> Namer {
        Namer { naming, next: 0 }
    }

    pub fn naming(&self) -> Naming {
        self.naming
    }

    /// The letters of the next name, and the bytes after them if it is to collide with the others
    /// of this loader.
    fn next_end(&mut self, loader: u64) -> ([u8; 8], Option<[u8; 8]>) {
        let from = behind_beginning(self.naming, loader);
        for number in self.next..u32::MAX {
            let letters = letters(number);
            if !self.naming.meets() {
                self.next = number + 1;
                return (letters, None);
            }
            let so_far = from
                .wrapping_mul(STEP)
                .wrapping_add(u64::from_le_bytes(letters));
            if let Some(end) = meeting_end(so_far) {
                self.next = number + 1;
                return (letters, Some(end));
            }
        }
        ([0; 8], None)
    }

    /// The next name, for a class of the loader of this number.
    pub fn next(&mut self, alloc: Global, loader: u64) -> Result<Vec<u8>, AllocError> {
        let mut name = vec![in alloc; FILLER; self.naming.beginning()]?;
        let (letters, end) = self.next_end(loader);
        name.extend_from_slice(&letters)?;
        if let Some(end) = end {
            name.extend_from_slice(&end)?;
        }
        Ok(name)
    }
}

/// The fingerprint of a name in the loader of this number, as the index of rows computes it.
pub fn mark(loader: u64, name: &[u8]) -> u32 {
    fingerprint(loader.wrapping_add(1), name)
}
