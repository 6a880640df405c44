//! What an index of a class's constant pool names.

use crate::bytes::Bytes;
use crate::class::Class;
use crate::constant::{Constant, Slot};
use crate::kind::Kind;

impl<U> Constant<U> {
    ghost use Rattle.std.specs.Prelude.{◌≡◌};
    ghost use Rattle.cm_class.specs.Names.{kind_of, is_kind};
    ghost use Rattle.cm_class.specs.Reading.{tag_number};
    ghost use Rattle.cm_class.specs.Spelling.{tag};

    /// Its kind, which has the tag that its spelling begins with (JVMS 4.4, table 4.4-A).
    pub fn kind(&self) -> Kind
        ensures kind { result ≡ kind_of self.now }
        ensures tag { tag_number result ≡ tag self.now }
    {
        match self {
            Constant::Utf8(_) => Kind::Utf8,
            Constant::Integer(_) => Kind::Integer,
            Constant::Float(_) => Kind::Float,
            Constant::Long(_) => Kind::Long,
            Constant::Double(_) => Kind::Double,
            Constant::Class { .. } => Kind::Class,
            Constant::String { .. } => Kind::String,
            Constant::Fieldref { .. } => Kind::Fieldref,
            Constant::Methodref { .. } => Kind::Methodref,
            Constant::InterfaceMethodref { .. } => Kind::InterfaceMethodref,
            Constant::NameAndType { .. } => Kind::NameAndType,
            Constant::MethodHandle { .. } => Kind::MethodHandle,
            Constant::MethodType { .. } => Kind::MethodType,
            Constant::InvokeDynamic { .. } => Kind::InvokeDynamic,
        }
    }

    /// Whether it is of this kind.
    pub fn is_kind(&self, kind: Kind) -> bool
        ensures { result ≡ is_kind kind self.now }
    {
        self.kind() == kind
    }
}

impl<'a> Class<'a> {
    ghost use Rattle.std.specs.Prelude.{◌≡◌, option_copied};
    ghost use Rattle.std.specs.Option.{option_map_or};
    ghost use Rattle.cm_class.specs.Names.{constant_named, names, utf8, names_utf8};
    ghost use Rattle.cm_class.specs.Names.{class_name_index, class_name, name_index_at};
    ghost use Rattle.cm_class.specs.Names.{descriptor_index_at, pair_index, reference_name};

    /// The constant that an index of the pool names; `None` at 0, after a Long or a Double, and
    /// past the end of the pool (JVMS 4.4).
    pub fn constant(&self, index: u16) -> Option<&Constant<Bytes<'a>>>
        ensures { option_copied result ≡ constant_named self.now index }
    {
        if index == 0 {
            return None;
        }
        match self.slots().get(usize::from(index) - 1) {
            Some(Slot::Usable(constant)) => Some(constant),
            _ => None,
        }
    }

    /// Whether an index names a constant of this kind.
    pub fn names(&self, index: u16, kind: Kind) -> bool
        ensures { result ≡ names kind self.now index }
    {
        match self.constant(index) {
            Some(constant) => constant.is_kind(kind),
            None => false,
        }
    }

    /// The bytes of the Utf8 that an index names; empty if it names no Utf8.
    pub fn utf8(&self, index: u16) -> &[u8]
        ensures { result.now ≡ utf8 self.now index }
    {
        match self.constant(index) {
            Some(Constant::Utf8(bytes)) => bytes.as_slice(),
            _ => &[],
        }
    }

    /// Whether an index names a Utf8 of these bytes.
    pub fn names_utf8(&self, index: u16, bytes: &[u8]) -> bool
        ensures { result ≡ names_utf8 self.now index bytes.now }
    {
        self.names(index, Kind::Utf8) && self.utf8(index) == bytes
    }

    /// Index of a class's name; 0 if there is no class.
    fn class_name_index(&self, index: u16) -> u16
        ensures { result ≡ option_map_or class_name_index (constant_named self.now index) 0 }
    {
        match self.constant(index) {
            Some(Constant::Class { name }) => *name,
            _ => 0,
        }
    }

    /// The name of the class that an index names: the bytes of the Utf8 that it leads to; empty if
    /// it leads to no Utf8 (JVMS 4.4.1).
    pub fn class_name(&self, index: u16) -> &[u8]
        ensures { result.now ≡ class_name self.now index }
    {
        self.utf8(self.class_name_index(index))
    }

    /// The indexes of the name and of the descriptor in the NameAndType that an index names; both 0
    /// if it names none (JVMS 4.4.6).
    pub fn name_and_type(&self, index: u16) -> (u16, u16)
        ensures name { result.0 ≡ name_index_at self.now index }
        ensures descriptor { result.1 ≡ descriptor_index_at self.now index }
    {
        match self.constant(index) {
            Some(Constant::NameAndType { name, descriptor }) => (*name, *descriptor),
            _ => (0, 0),
        }
    }

    /// Index of the NameAndType that a reference to a member names; 0 if there is none.
    fn pair_index(&self, index: u16) -> u16
        ensures { result ≡ option_map_or pair_index (constant_named self.now index) 0 }
    {
        match self.constant(index) {
            Some(
                Constant::Fieldref { name_and_type, .. }
                | Constant::Methodref { name_and_type, .. }
                | Constant::InterfaceMethodref { name_and_type, .. },
            ) => *name_and_type,
            _ => 0,
        }
    }

    /// The name of the field or method to which the reference at an index refers; empty if there is
    /// none (JVMS 4.4.2).
    pub fn reference_name(&self, index: u16) -> &[u8]
        ensures { result.now ≡ reference_name self.now index }
    {
        self.utf8(self.name_and_type(self.pair_index(index)).0)
    }
}
