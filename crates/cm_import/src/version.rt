//! Versions of class files.

/// The version that a cache takes, after the four bytes that each class file begins with.
const TAKEN: Version = Version {
    major: 52,
    minor: 0,
};

/// The version of a class file.
#[derive(Clone, Copy, Debug, PartialEq, Eq)]
pub struct Version {
    pub major: u16,
    pub minor: u16,
}

/// The version of a class file, if it is another one than a cache takes.
pub fn other_version(bytes: &[u8]) -> Option<Version> {
    let [
        0xCA,
        0xFE,
        0xBA,
        0xBE,
        minor_high,
        minor_low,
        major_high,
        major_low,
        ..
    ] = bytes
    else {
        return None;
    };
    let version = Version {
        major: u16::from_be_bytes([*major_high, *major_low]),
        minor: u16::from_be_bytes([*minor_high, *minor_low]),
    };
    if version == TAKEN {
        None
    } else {
        Some(version)
    }
}
