ghost use Rattle.std.specs.Prelude.{◌≡◌};

use crate::attributes::Attributes;
use crate::class_file::{ClassFile, Member};
use crate::constant::Slot;
use std::marker::Model;

/// A class file that has a spelling in bytes, and borrows them. Contracts see the `ClassFile` that
/// it holds.
#[derive(Debug, Drop)]
pub struct Class<'a> {
    file: ClassFile<'a>,
}

impl<'a> Model for Class<'a> {
    ghost use Rattle.cm_class.specs.declared.class_file.ClassFile.{ClassFile};
    ghost use Rattle.cm_class.specs.Spelling.{HasSpelling};

    ghost Value = { ClassFile };

    ghost view = { λ class. class.file };

    ghost invariant = { λ class. HasSpelling class.file };
}

impl<'a> Class<'a> {
    ghost use Rattle.std.specs.Prelude.{◌≡◌, ◌<◌, ◌^◌, length};
    ghost use Rattle.cm_class.specs.Spelling.{HasSpelling};

    /// The class of these parts. Each list is within its count, each wide constant has its unusable
    /// slot, and no other slot is unusable.
    pub fn from_file(file: ClassFile<'a>) -> Class<'a>
        requires { HasSpelling file }
        ensures { result ≡ file.entry }
    {
        Class { file }
    }

    /// The constant pool from index 1 on.
    pub fn slots(&self) -> &[Slot<'a>]
        ensures { result.now ≡ self.now.slots }
    {
        self.file.slots.as_slice()
    }

    /// Does nothing: its clause says that the class has a spelling.
    pub fn invariant_holds(&self)
        ensures { HasSpelling self.now }
    {
        let _read = self.file.flags; // reading a field provides the invariant
    }

    /// The access flags (JVMS 4.1).
    pub fn flags(&self) -> u16
        ensures value { result ≡ self.now.flags }
        ensures spelled { HasSpelling self.now }
    {
        self.file.flags
    }

    /// Index of the class in the pool.
    pub fn this_class(&self) -> u16
        ensures { result ≡ self.now.this_class }
    {
        self.file.this_class
    }

    /// Index of the super class in the pool; 0 if there is none.
    pub fn super_class(&self) -> u16
        ensures { result ≡ self.now.super_class }
    {
        self.file.super_class
    }

    /// Indexes of the interfaces in the pool.
    pub fn interfaces(&self) -> &[u16]
        ensures { result.now ≡ self.now.interfaces }
    {
        self.file.interfaces.as_slice()
    }

    /// The fields, in the file's order.
    pub fn fields(&self) -> &[Member<'a>]
        ensures { result.now ≡ self.now.fields }
    {
        self.file.fields.as_slice()
    }

    /// The methods, in the file's order.
    pub fn methods(&self) -> &[Member<'a>]
        ensures { result.now ≡ self.now.methods }
    {
        self.file.methods.as_slice()
    }

    /// The attributes of the class itself, in the file's order.
    pub fn attributes(&self) -> Attributes<'a>
        ensures same { result ≡ self.now.attributes }
        ensures short { length result < 2 ^ 16 }
    {
        self.file.attributes.iter()
    }
}
