//! A class as lines.

use crate::shown::{ShownAttribute, ShownClass, ShownConstant, ShownMember};
use std::alloc::{AllocError, Global};

/// Lines that are being written.
#[derive(Drop)]
struct Lines {
    alloc: Global,
    bytes: Vec<u8>,
}

impl Lines {
    /// A line of words and, in the end, a text.
    fn push(&mut self, words: String, text: &[u8]) -> Result<(), AllocError> {
        self.bytes.extend_from_slice(words.as_bytes())?;
        self.bytes.extend_from_slice(text)?;
        self.bytes.push(b'\n')?;
        Ok(())
    }

    fn push_attributes(
        &mut self,
        word: &str,
        attributes: &[ShownAttribute],
    ) -> Result<(), AllocError> {
        for attribute in attributes {
            let words = format!(in self.alloc; "{word} length {} ", attribute.len)?;
            self.push(words, &attribute.name)?;
        }
        Ok(())
    }

    fn push_members(&mut self, word: &str, members: &[ShownMember]) -> Result<(), AllocError> {
        for member in members {
            self.push(
                format!(in self.alloc; "{word} flags {:04x} ", member.flags)?,
                &member.name,
            )?;
            self.push(format!(in self.alloc; "descriptor ")?, &member.descriptor)?;
            self.push_attributes("attribute", &member.attributes)?;
            self.push_attributes("nested", &member.nested)?;
        }
        Ok(())
    }

    fn push_constants(&mut self, constants: &[ShownConstant]) -> Result<(), AllocError> {
        for constant in constants {
            let words = format!(in self.alloc; "constant {} {} ", constant.index, constant.kind)?;
            self.push(words, &constant.value)?;
        }
        Ok(())
    }
}

/// The lines of a class, with its constants if that is wanted.
pub fn spell(alloc: Global, class: &ShownClass, constants: bool) -> Result<Vec<u8>, AllocError> {
    let mut lines = Lines {
        alloc,
        bytes: Vec::new(alloc),
    };
    lines.push(
        format!(in alloc; "class flags {:04x} ", class.flags)?,
        &class.name,
    )?;
    if let Some(name) = &class.super_name {
        lines.push(format!(in alloc; "super ")?, name)?;
    }
    for name in &class.interfaces {
        lines.push(format!(in alloc; "interface ")?, name)?;
    }
    lines.push_members("field", &class.fields)?;
    lines.push_members("method", &class.methods)?;
    lines.push_attributes("class attribute", &class.attributes)?;
    if constants {
        lines.push_constants(&class.constants)?;
    }
    Ok(lines.bytes)
}
