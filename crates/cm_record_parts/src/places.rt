//! Where the bytes of names and texts are.
ghost use Rattle.std.specs.Prelude.{◌≡◌};
ghost use Rattle.cm_class.specs.declared.class_file.ClassFile.{ClassFile};
ghost use Rattle.cm_class.specs.Names.{utf8, class_name};
ghost use Rattle.cm_record_layout.specs.Layout.{IsRecordOf};
ghost use Rattle.cm_record.specs.Runs.{class_link as class_link_of};
ghost use Rattle.cm_record_parts.specs.Places.{LieAt, place_of_utf8 as place_of_utf8_of};
ghost use Rattle.cm_record_parts.specs.Places.{text_place as text_place_of};

use crate::constants::constant_at_index;
use cm_class::Constant;
use cm_record::Utf8Place;

/// Where some bytes are in a record.
#[repr(C)]
#[derive(Clone, Copy, Debug, PartialEq, Eq)]
pub struct Place {
    /// Where they begin, counted in bytes from the record's first byte; a byte is eight bits of its
    /// word, the lowest first.
    pub at: u32,
    /// How many there are.
    pub len: u32,
}

/// The place of a Utf8; `None` for anything else.
pub(crate) fn text_place(constant: Option<Constant<Utf8Place>>) -> Option<Place>
    ensures { result ≡ text_place_of constant }
{
    match constant {
        Some(Constant::Utf8(place)) => Some(Place {
            at: place.at,
            len: u32::from(place.len),
        }),
        _ => None,
    }
}

// The place of a Utf8; that of no bytes for anything else.
fn place_of_utf8(constant: Option<Constant<Utf8Place>>) -> Place
    ensures { result ≡ place_of_utf8_of constant }
{
    text_place(constant).unwrap_or(Place { at: 0, len: 0 })
}

// The index of the name that a Class holds; 0 for anything else.
fn class_link(constant: Option<Constant<Utf8Place>>) -> u16
    ensures { result ≡ class_link_of constant }
{
    match constant {
        Some(Constant::Class { name }) => name,
        _ => 0,
    }
}

/// Where the bytes of the Utf8 at an index are; no bytes if there is no Utf8.
pub(crate) fn utf8_place(words: &[u64], index: u16) -> Place
    ensures { (c : ClassFile) → IsRecordOf c words.now → LieAt words.now result (utf8 c index) }
{
    place_of_utf8(constant_at_index(words, index))
}

/// Where the name is that the Class at an index leads to.
pub(crate) fn name_place(words: &[u64], index: u16) -> Place
    ensures { (c : ClassFile) → IsRecordOf c words.now
        → LieAt words.now result (class_name c index) }
{
    let name = class_link(constant_at_index(words, index));
    place_of_utf8(constant_at_index(words, name))
}
