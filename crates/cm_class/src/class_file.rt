ghost use Rattle.std.specs.Prelude.{◌≡◌, ◌<◌, ◌^◌, length};

use crate::attributes::Attributes;
use crate::bytes::Bytes;
use crate::constant::Slot;
use crate::items::Items;

/// An attribute (JVMS 4.7), its content borrowed from the file.
#[derive(Debug, Drop)]
pub struct Attribute<'a> {
    /// Index of its name in the pool.
    pub name: u16,
    pub bytes: Bytes<'a>,
}

impl<'a> Attribute<'a> {
    /// Its content.
    pub fn content(&self) -> &'a [u8]
        ensures { result.now ≡ self.now.bytes }
    {
        self.bytes.as_slice()
    }
}

/// A field or a method (JVMS 4.5, 4.6).
#[derive(Debug, Drop)]
pub struct Member<'a> {
    pub flags: u16,
    /// Index of its name in the pool.
    pub name: u16,
    /// Index of its descriptor in the pool.
    pub descriptor: u16,
    pub attributes: Attributes<'a>,
}

impl<'a> Member<'a> {
    /// Its attributes, in the file's order.
    pub fn attributes(&self) -> Attributes<'a>
        ensures same { result ≡ self.now.attributes }
        ensures short { length result < 2 ^ 16 }
    {
        self.attributes.iter()
    }
}

/// All that a class file of version 52.0 holds (JVMS 4.1), of any size: some have no spelling, such
/// as one with 65,536 fields.
#[derive(Debug, Drop)]
pub struct ClassFile<'a> {
    /// The constant pool from index 1 on.
    pub slots: Items<Slot<'a>>,
    pub flags: u16,
    pub this_class: u16,
    /// 0 if there is none.
    pub super_class: u16,
    pub interfaces: Items<u16>,
    pub fields: Items<Member<'a>>,
    pub methods: Items<Member<'a>>,
    pub attributes: Attributes<'a>,
}
