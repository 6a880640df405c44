//! What an index of the constant pool names, and whether that is a name or a descriptor.

use crate::laid::LaidClass;
use crate::plain::are_plain;
use cm_class::{Constant, Kind};
use cm_descriptors::{
    begins_with, has_utf8_form, is_field_descriptor, is_method_name, is_unqualified_name, judge,
    method_units,
};

impl<'a> LaidClass<'a> {
    ghost use Rattle.std.specs.Prelude.{◌≡◌, true};
    ghost use Rattle.std.specs.Option.{option_map_or};
    ghost use Rattle.cm_class.specs.Names.{constant_named, utf8, names_utf8, class_name_index};
    ghost use Rattle.cm_class.specs.Names.{class_name, pair_index, reference_name};
    ghost use Rattle.cm_descriptors.specs.Forms.{is_class_name, is_unqualified_name};
    ghost use Rattle.cm_descriptors.specs.Forms.{is_method_name};
    ghost use Rattle.cm_record_rules.specs.Plain.{is_plain_name};
    ghost use Rattle.cm_descriptors.specs.Forms.{has_utf8_form};
    ghost use Rattle.cm_descriptors.specs.Forms.{is_field_descriptor, is_array_descriptor};
    ghost use Rattle.cm_descriptors.specs.Forms.{is_method_descriptor, method_units};

    /// Whether an index names a Utf8 of these bytes.
    pub(crate) fn names_utf8(&self, index: u16, bytes: &[u8]) -> bool
        ensures { result ≡ names_utf8 self.now index bytes.now }
    {
        self.names(index, Kind::Utf8) && self.utf8(index) == bytes
    }

    /// Index of a class's name; 0 if there is no class.
    fn class_name_index(&self, index: u16) -> u16
        ensures { result ≡ option_map_or class_name_index (constant_named self.now index) 0 }
    {
        match self.constant(index) {
            Some(Constant::Class { name }) => name,
            _ => 0,
        }
    }

    /// The name of the class that an index names; empty if it leads to no Utf8.
    pub(crate) fn class_name(&self, index: u16) -> &'a [u8]
        ensures { result.now ≡ class_name self.now index }
    {
        self.utf8(self.class_name_index(index))
    }

    /// Index of the NameAndType that a reference to a member names; 0 if there is none.
    fn pair_index(&self, index: u16) -> u16
        ensures { result ≡ option_map_or pair_index (constant_named self.now index) 0 }
    {
        match self.constant(index) {
            Some(
                Constant::Fieldref { name_and_type, .. }
                | Constant::Methodref { name_and_type, .. }
                | Constant::InterfaceMethodref { name_and_type, .. },
            ) => name_and_type,
            _ => 0,
        }
    }

    /// The name of the field or method to which the reference at an index refers; empty if there is
    /// none.
    pub(crate) fn reference_name(&self, index: u16) -> &'a [u8]
        ensures { result.now ≡ reference_name self.now index }
    {
        self.utf8(self.name_and_type(self.pair_index(index)).0)
    }

    /// Whether the Utf8 at an index has the right form.
    pub(crate) fn has_utf8_form(&self, index: u16) -> bool
        ensures { result ≡ has_utf8_form (utf8 self.now index) }
    {
        has_utf8_form(self.utf8(index))
    }

    /// Whether the Utf8 at an index is a class name.
    #[tactic(auto, unfolding(cm_descriptors::specs::Judgement::judgement))]
    pub(crate) fn names_class_name(&self, index: u16) -> bool
        ensures { result ≡ is_class_name (utf8 self.now index) }
    {
        judge(self.utf8(index)).class_name
    }

    /// Whether the Utf8 at an index is found to be the name of any field or method, except the two
    /// special ones. The bytes that fill up its last word are checked with it, so that no single
    /// bytes are left over.
    #[tactic(auto, using(crate::proofs::PlainNames::plain_front))]
    fn is_plain_name(&self, index: u16) -> bool
        ensures { result ≡ true → is_plain_name (utf8 self.now index) ≡ true }
    {
        !self.utf8(index).is_empty() && are_plain(self.filled_utf8(index))
    }

    /// Whether the Utf8 at an index is an unqualified name.
    #[tactic(auto, using(crate::proofs::PlainNames::plain_is_unqualified))]
    pub(crate) fn names_unqualified_name(&self, index: u16) -> bool
        ensures { result ≡ is_unqualified_name (utf8 self.now index) }
    {
        self.is_plain_name(index) || is_unqualified_name(self.utf8(index))
    }

    /// Whether the Utf8 at an index is a method's name.
    #[tactic(auto, using(crate::proofs::PlainNames::plain_is_method))]
    pub(crate) fn names_method_name(&self, index: u16) -> bool
        ensures { result ≡ is_method_name (utf8 self.now index) }
    {
        self.is_plain_name(index) || is_method_name(self.utf8(index))
    }

    /// Whether the Utf8 at an index is a field descriptor.
    pub(crate) fn names_field_descriptor(&self, index: u16) -> bool
        ensures { result ≡ is_field_descriptor (utf8 self.now index) }
    {
        is_field_descriptor(self.utf8(index))
    }

    /// The units of the method descriptor at an index.
    pub(crate) fn method_units(&self, index: u16) -> Option<u8>
        ensures { result ≡ method_units (utf8 self.now index) }
    {
        method_units(self.utf8(index))
    }

    /// Whether the Utf8 at an index is a method descriptor.
    pub(crate) fn names_method_descriptor(&self, index: u16) -> bool
        ensures { result ≡ is_method_descriptor (utf8 self.now index) }
    {
        self.method_units(index).is_some()
    }

    /// Whether the Utf8 at an index is the descriptor of an array.
    pub(crate) fn names_array_descriptor(&self, index: u16) -> bool
        ensures { result ≡ is_array_descriptor (utf8 self.now index) }
    {
        begins_with(b'[', self.utf8(index)) && self.names_field_descriptor(index)
    }
}
