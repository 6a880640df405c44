//! Whether the Utf8s have the right form, all checked at once (JVMS 4.4.7).
//!
//! Their words lie side by side in the record. Among the bytes of these words are those of the
//! Utf8s, and zeros that fill up the last word of each. So if there are as many characters of one
//! byte, 01 to 7F, as the Utf8s have bytes, each byte of a Utf8 is one.
ghost use Rattle.std.specs.Prelude.{◌≡◌, ◌≤◌, ◌<◌, ◌^◌, true, length};
ghost use Rattle.std.specs.Option.{option_map_or};
ghost use Rattle.std.specs.List.{list_all};
ghost use Rattle.cm_class.specs.Names.{constant_named};
ghost use Rattle.cm_constraints.specs.Constants.{in_slot, utf8_has_form};
ghost use Rattle.cm_record_rules.specs.Plain.{count_characters};

use crate::laid::LaidClass;

/// How many bytes are counted at once, in a number of one byte.
const FEW: usize = 240;

/// The most bytes of a Utf8.
const MOST: usize = 65535;

/// How many of a few bytes are characters by themselves.
fn count_few(bytes: &[u8]) -> u8
    requires { length bytes.now ≤ 240 }
    ensures { result ≡ count_characters bytes.now }
{
    let mut count = 0;
    for byte in bytes {
        count += u8::from((*byte >= 0x01) & (*byte <= 0x7f));
    }
    count
}

/// How many of the bytes are characters by themselves.
fn count_characters(bytes: &[u8]) -> usize
    requires { length bytes.now < 2 ^ 63 }
    ensures { result ≡ count_characters bytes.now }
{
    let mut rest = bytes;
    let mut count = 0;
    while !rest.is_empty() {
        let (front, behind) = rest.split_at(rest.len().min(FEW));
        count += usize::from(count_few(front));
        rest = behind;
    }
    count
}

/// Whether the Utf8s consist of characters of one byte.
fn are_characters(class: &LaidClass) -> bool
    ensures { result ≡ true → list_all (in_slot utf8_has_form) class.now.slots ≡ true }
{
    let last = class.last_index();
    let mut index = 0;
    let mut bytes = 0;
    let mut filled = 0;
    while index < last {
        index += 1;
        let len = class.utf8(index).len();
        if len > MOST {
            return false;
        }
        bytes += len;
        filled += (len + 7) / 8 * 8;
    }
    count_characters(class.utf8_words(filled)) == bytes
}

/// Whether the constant at an index, if it is a Utf8, has the right form.
fn has_form_at(class: &LaidClass, index: u16) -> bool
    ensures { result ≡ option_map_or utf8_has_form (constant_named class.now index) true }
{
    class.has_utf8_form(index)
}

/// Whether each Utf8 has the right form, checked one by one.
fn have_form(class: &LaidClass) -> bool
    ensures { result ≡ true → list_all (in_slot utf8_has_form) class.now.slots ≡ true }
{
    let last = class.last_index();
    let mut index = 0;
    while index < last {
        index += 1;
        if !has_form_at(class, index) {
            return false;
        }
    }
    true
}

/// Whether each Utf8 has the right form.
pub(crate) fn utf8s_have_form(class: &LaidClass) -> bool
    ensures { result ≡ true → list_all (in_slot utf8_has_form) class.now.slots ≡ true }
{
    are_characters(class) || have_form(class)
}
