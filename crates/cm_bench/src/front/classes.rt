//! Class files that the program generates itself.

use crate::front::names::letters;
use anyhow::Result;
use cm_commands::{Prepared, prepare};
use std::alloc::{AllocError, Global};

/// How much a class contains beside its name.
#[derive(Clone, Copy, Debug, PartialEq, Eq)]
pub enum Size {
    /// Nothing beyond the necessary.
    Small,
    /// About as much as in classes of real libraries: some 3,400 bytes.
    Ordinary,
}

/// The additional content of a class of ordinary size.
const CONSTANTS: u16 = 100;

const ATTRIBUTE: u32 = 2_200;

/// `CAFEBABE`, and version 52.0.
const HEADING: [u8; 8] = [0xca, 0xfe, 0xba, 0xbe, 0, 0, 0, 52];

impl Size {
    /// Its name in the output.
    pub fn name(self) -> &'static str {
        match self {
            Size::Small => "small classes",
            Size::Ordinary => "ordinary classes",
        }
    }

    /// How many constants come before those that each class has.
    fn constants(self) -> u16 {
        match self {
            Size::Small => 0,
            Size::Ordinary => CONSTANTS,
        }
    }

    /// How many bytes its attribute has.
    fn attribute(self) -> u32 {
        match self {
            Size::Small => 0,
            Size::Ordinary => ATTRIBUTE,
        }
    }
}

fn push_u16(bytes: &mut Vec<u8>, number: u16) -> Result<(), AllocError> {
    bytes.extend_from_slice(&number.to_be_bytes())
}

fn push_utf8(bytes: &mut Vec<u8>, text: &[u8]) -> Result<(), AllocError> {
    bytes.push(1)?;
    push_u16(bytes, u16::try_from(text.len()).unwrap_or(u16::MAX))?;
    bytes.extend_from_slice(text)
}

fn push_class(bytes: &mut Vec<u8>, name_index: u16) -> Result<(), AllocError> {
    bytes.push(7)?;
    push_u16(bytes, name_index)
}

/// The constants: some that nothing names, followed by the class, its super class, and the name of
/// its attribute.
fn push_constants(bytes: &mut Vec<u8>, name: &[u8], before: u16) -> Result<(), AllocError> {
    push_u16(bytes, before.wrapping_add(6))?;
    for number in 0..before {
        push_utf8(bytes, &letters(u32::from(number)))?;
    }
    push_class(bytes, before.wrapping_add(2))?;
    push_utf8(bytes, name)?;
    push_class(bytes, before.wrapping_add(4))?;
    push_utf8(bytes, b"java/lang/Object")?;
    push_utf8(bytes, b"X")
}

/// A class of this name, with one attribute of zeros.
fn class_file(alloc: Global, name: &[u8], size: Size) -> Result<Vec<u8>, AllocError> {
    let before = size.constants();
    let mut bytes = Vec::new(alloc);
    bytes.extend_from_slice(&HEADING)?;
    push_constants(&mut bytes, name, before)?;
    push_u16(&mut bytes, 0x21)?;
    push_u16(&mut bytes, before.wrapping_add(1))?;
    push_u16(&mut bytes, before.wrapping_add(3))?;
    for count in [0, 0, 0, 1] {
        push_u16(&mut bytes, count)?;
    }
    push_u16(&mut bytes, before.wrapping_add(5))?;
    bytes.extend_from_slice(&size.attribute().to_be_bytes())?;
    for _byte in 0..size.attribute() {
        bytes.push(0)?;
    }
    Ok(bytes)
}

/// A class of this name, ready to be defined.
pub fn class(alloc: Global, name: &[u8], size: Size) -> Result<Prepared> {
    let bytes = class_file(alloc, name, size)?;
    Ok(prepare(alloc, &bytes)?)
}
