//! What is shown of a class. Texts are spelled as names are in scripts.

use cm_class::Constant;
use cm_lines::escape_into;
use cm_record::{Record, Utf8Place};
use cm_record_parts::{
    Attribute, Member, NestedAttributes, Owner, Place, PoolConstant, attribute_at, attribute_count,
    attribute_named, class_name, field, field_count, flags, interface, interface_count, method,
    method_count, nested_attribute, nested_attributes, next_constant, super_name,
};
use std::alloc::{AllocError, Global};

/// An attribute: its name, and how many bytes its content has.
#[derive(Drop)]
pub struct ShownAttribute {
    pub name: Vec<u8>,
    pub len: u32,
}

/// A field or a method.
#[derive(Drop)]
pub struct ShownMember {
    pub flags: u16,
    pub name: Vec<u8>,
    pub descriptor: Vec<u8>,
    pub attributes: Vec<ShownAttribute>,
    /// The attributes of its code, if it has any.
    pub nested: Vec<ShownAttribute>,
}

/// A constant: its index, its kind, and what it holds.
#[derive(Drop)]
pub struct ShownConstant {
    pub index: u16,
    pub kind: &'static str,
    pub value: Vec<u8>,
}

/// A class.
#[derive(Drop)]
pub struct ShownClass {
    pub flags: u16,
    pub name: Vec<u8>,
    pub super_name: Option<Vec<u8>>,
    pub interfaces: Vec<Vec<u8>>,
    pub fields: Vec<ShownMember>,
    pub methods: Vec<ShownMember>,
    pub attributes: Vec<ShownAttribute>,
    pub constants: Vec<ShownConstant>,
}

/// A record's words, and the same as bytes.
#[derive(Clone, Copy)]
struct Source<'a> {
    words: &'a [u64],
    bytes: &'a [u8],
}

impl<'a> Source<'a> {
    /// The text at a place.
    fn text(self, alloc: Global, place: Place) -> Result<Vec<u8>, AllocError> {
        let (at, len) = (place.at as usize, place.len as usize);
        let mut text = Vec::new(alloc);
        if let Some(bytes) = self.bytes.get(at..at + len) {
            escape_into(&mut text, bytes)?;
        }
        Ok(text)
    }

    fn attribute(self, alloc: Global, found: Attribute) -> Result<ShownAttribute, AllocError> {
        Ok(ShownAttribute {
            name: self.text(alloc, found.name)?,
            len: found.content.len,
        })
    }

    fn attributes(self, alloc: Global, owner: Owner) -> Result<Vec<ShownAttribute>, AllocError> {
        let mut list = Vec::new(alloc);
        for index in 0..attribute_count(self.words, owner) {
            if let Some(found) = attribute_at(self.words, owner, index) {
                list.push(self.attribute(alloc, found)?)?;
            }
        }
        Ok(list)
    }

    /// The attributes in the content of a Code.
    fn nested(
        self,
        alloc: Global,
        content: Place,
        nested: NestedAttributes,
    ) -> Result<Vec<ShownAttribute>, AllocError> {
        let mut list = Vec::new(alloc);
        let mut from = nested.from;
        for _ in 0..nested.count {
            let Some(found) = nested_attribute(self.words, content, from) else {
                break;
            };
            list.push(self.attribute(alloc, found)?)?;
            from = from.saturating_add(6 + u64::from(found.content.len));
        }
        Ok(list)
    }

    /// The attributes of a method's code; none if it has no code.
    fn of_code(self, alloc: Global, owner: Owner) -> Result<Vec<ShownAttribute>, AllocError> {
        let Some(code) = attribute_named(self.words, owner, b"Code") else {
            return Ok(Vec::new(alloc));
        };
        match nested_attributes(self.words, code.content) {
            Some(nested) => self.nested(alloc, code.content, nested),
            None => Ok(Vec::new(alloc)),
        }
    }

    fn member(self, alloc: Global, found: Member, owner: Owner) -> Result<ShownMember, AllocError> {
        Ok(ShownMember {
            flags: found.flags,
            name: self.text(alloc, found.name)?,
            descriptor: self.text(alloc, found.descriptor)?,
            attributes: self.attributes(alloc, owner)?,
            nested: self.of_code(alloc, owner)?,
        })
    }

    fn fields(self, alloc: Global) -> Result<Vec<ShownMember>, AllocError> {
        let mut list = Vec::new(alloc);
        for index in 0..field_count(self.words) {
            if let Some(found) = field(self.words, index) {
                list.push(self.member(alloc, found, Owner::Field(index))?)?;
            }
        }
        Ok(list)
    }

    fn methods(self, alloc: Global) -> Result<Vec<ShownMember>, AllocError> {
        let mut list = Vec::new(alloc);
        for index in 0..method_count(self.words) {
            if let Some(found) = method(self.words, index) {
                list.push(self.member(alloc, found, Owner::Method(index))?)?;
            }
        }
        Ok(list)
    }

    fn interfaces(self, alloc: Global) -> Result<Vec<Vec<u8>>, AllocError> {
        let mut list = Vec::new(alloc);
        for index in 0..interface_count(self.words) {
            if let Some(place) = interface(self.words, index) {
                list.push(self.text(alloc, place)?)?;
            }
        }
        Ok(list)
    }

    fn constant(self, alloc: Global, found: PoolConstant) -> Result<ShownConstant, AllocError> {
        let value = match found.constant {
            Constant::Utf8(Utf8Place { at, len }) => {
                let len = u32::from(len);
                self.text(alloc, Place { at, len })?
            }
            other => numbers_of(alloc, other)?.into_bytes(),
        };
        Ok(ShownConstant {
            index: found.index,
            kind: kind_of(found.constant),
            value,
        })
    }

    fn constants(self, alloc: Global) -> Result<Vec<ShownConstant>, AllocError> {
        let mut list = Vec::new(alloc);
        let mut after = 0;
        for _ in 0..u16::MAX {
            let Some(found) = next_constant(self.words, after) else {
                break;
            };
            after = found.index;
            list.push(self.constant(alloc, found)?)?;
        }
        Ok(list)
    }

    fn class(self, alloc: Global) -> Result<ShownClass, AllocError> {
        let super_name = match super_name(self.words) {
            Some(place) => Some(self.text(alloc, place)?),
            None => None,
        };
        Ok(ShownClass {
            flags: flags(self.words),
            name: self.text(alloc, class_name(self.words))?,
            super_name,
            interfaces: self.interfaces(alloc)?,
            fields: self.fields(alloc)?,
            methods: self.methods(alloc)?,
            attributes: self.attributes(alloc, Owner::Class)?,
            constants: self.constants(alloc)?,
        })
    }
}

/// The name of a constant's kind (JVMS table 4.4-A).
fn kind_of(constant: Constant<Utf8Place>) -> &'static str {
    match constant {
        Constant::Utf8(_) => "Utf8",
        Constant::Integer(_) => "Integer",
        Constant::Float(_) => "Float",
        Constant::Long(_) => "Long",
        Constant::Double(_) => "Double",
        Constant::Class { .. } => "Class",
        Constant::String { .. } => "String",
        Constant::Fieldref { .. } => "Fieldref",
        Constant::Methodref { .. } => "Methodref",
        Constant::InterfaceMethodref { .. } => "InterfaceMethodref",
        Constant::NameAndType { .. } => "NameAndType",
        Constant::MethodHandle { .. } => "MethodHandle",
        Constant::MethodType { .. } => "MethodType",
        Constant::InvokeDynamic { .. } => "InvokeDynamic",
    }
}

/// What a constant other than a Utf8 holds: the bits of a number, or its indexes.
fn numbers_of(alloc: Global, constant: Constant<Utf8Place>) -> Result<String, AllocError> {
    match constant {
        Constant::Utf8(place) => format!(in alloc; "{}", place.len),
        Constant::Integer(bits) | Constant::Float(bits) => format!(in alloc; "{bits}"),
        Constant::Long(bits) | Constant::Double(bits) => format!(in alloc; "{bits}"),
        Constant::Class { name: one }
        | Constant::String { utf8: one }
        | Constant::MethodType { descriptor: one } => format!(in alloc; "{one}"),
        Constant::Fieldref {
            class: one,
            name_and_type: two,
        }
        | Constant::Methodref {
            class: one,
            name_and_type: two,
        }
        | Constant::InterfaceMethodref {
            class: one,
            name_and_type: two,
        }
        | Constant::NameAndType {
            name: one,
            descriptor: two,
        }
        | Constant::InvokeDynamic {
            bootstrap_method: one,
            name_and_type: two,
        } => format!(in alloc; "{one} {two}"),
        Constant::MethodHandle { kind, reference } => format!(in alloc; "{kind} {reference}"),
    }
}

/// What is shown of a record's class.
pub fn show(alloc: Global, record: &Record) -> Result<ShownClass, AllocError> {
    let mut bytes = vec![in alloc; 0u8; 8 * record.words() as usize]?;
    record.bytes_into(&mut bytes);
    let source = Source {
        words: record.as_slice(),
        bytes: &bytes,
    };
    source.class(alloc)
}
