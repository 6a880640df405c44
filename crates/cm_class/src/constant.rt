ghost use Rattle.std.specs.Prelude.{◌≡◌};

use crate::bytes::Bytes;

/// A constant of the pool (JVMS 4.4). Each index is an index of the pool, which counts from 1. `U`
/// denotes the bytes of a Utf8: in a class the bytes themselves, in a record their place.
#[derive(Clone, Copy, Debug, PartialEq, Eq, Drop)]
pub enum Constant<U> {
    /// Tag 1: bytes. Separate rules check their form.
    Utf8(U),
    /// Tag 3: the number's bits.
    Integer(u32),
    /// Tag 4: the number's bits.
    Float(u32),
    /// Tag 5: the number's bits. It takes two indexes.
    Long(u64),
    /// Tag 6: the number's bits. It takes two indexes.
    Double(u64),
    /// Tag 7.
    Class {
        name: u16,
    },
    /// Tag 8.
    String {
        utf8: u16,
    },
    /// Tag 9.
    Fieldref {
        class: u16,
        name_and_type: u16,
    },
    /// Tag 10.
    Methodref {
        class: u16,
        name_and_type: u16,
    },
    /// Tag 11.
    InterfaceMethodref {
        class: u16,
        name_and_type: u16,
    },
    /// Tag 12.
    NameAndType {
        name: u16,
        descriptor: u16,
    },
    /// Tag 15: the kind says what the reference refers to.
    MethodHandle {
        kind: u8,
        reference: u16,
    },
    /// Tag 16.
    MethodType {
        descriptor: u16,
    },
    /// Tag 18: the first is an index of the bootstrap methods, which count from 0, and not of the
    /// pool.
    InvokeDynamic {
        bootstrap_method: u16,
        name_and_type: u16,
    },
}

impl<U> Constant<U> {
    ghost use Rattle.std.specs.Prelude.{◌≡◌};
    ghost use Rattle.cm_class.specs.Spelling.{is_wide};

    /// Whether it takes two indexes of the pool, as a Long or a Double does.
    pub fn is_wide(&self) -> bool
        ensures { result ≡ is_wide self.now }
    {
        matches!(self, Constant::Long(_) | Constant::Double(_))
    }
}

/// What is at one index of the constant pool.
#[derive(Debug, Drop)]
pub enum Slot<'a> {
    /// A constant begins here.
    Usable(Constant<Bytes<'a>>),
    /// The second index of the Long or Double before it.
    Unusable,
}
