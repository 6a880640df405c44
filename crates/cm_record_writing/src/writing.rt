//! The whole record of a class.
ghost use Rattle.std.specs.Prelude.{◌≡◌, ◌≤◌, ◌<◌, ◌↔◌, length, IfOk, IsErrOf};
ghost use Rattle.cm_class.specs.Spelling.{HasSpelling};
ghost use Rattle.cm_record_layout.specs.Layout.{lay, record_len, limit, IsRecordOf};
ghost use Rattle.cm_record_writing.specs.Places.{ArePlaces};

use crate::parts::{push_attributes_and_runs, push_head, push_pool_and_members};
use crate::places::Places;
use crate::refusal::RecordRefusal;
use cm_class::Class;
use cm_words::WordBuf;
use std::alloc::{AllocError, Global};

/// The words of a class's layout. All the room for them is allocated at once.
fn words_of_class(alloc: Global, class: &Class, places: &Places) -> Result<WordBuf, AllocError>
    requires places { ArePlaces class.now places.now }
    requires spelled { HasSpelling class.now }
    requires short { record_len class.now ≤ limit }
    ensures { IfOk result (λ words. words.words ≡ lay class.now) }
{
    let mut words = WordBuf::with_capacity(alloc, places.len as usize)?;
    push_head(&mut words, class, places);
    push_pool_and_members(&mut words, class, places);
    push_attributes_and_runs(&mut words, class, places);
    Ok(words)
}

/// The words of the class's record, in a buffer that has room for no more. Returns `TooLong`
/// exactly if there are more than 524,288.
pub fn write_class(alloc: Global, class: &Class) -> Result<WordBuf, RecordRefusal>
    ensures ok { IfOk result (λ words. words.words ≡ lay class.now) }
    ensures record { IfOk result (λ words. IsRecordOf class.now words.words) }
    ensures too_long { IsErrOf result RecordRefusal.TooLong ↔ (limit < length (lay class.now)) }
{
    let Some(places) = Places::of(class) else {
        return Err(RecordRefusal::TooLong);
    };
    Ok(words_of_class(alloc, class, &places)?)
}
