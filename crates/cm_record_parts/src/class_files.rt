//! The class file that a record was made from.
ghost use Rattle.std.specs.Prelude.{◌≡◌, ◌≤◌, length, IfOk, IsErrOf};
ghost use Rattle.cm_class.specs.declared.class_file.ClassFile.{ClassFile};
ghost use Rattle.cm_class.specs.Spelling.{spell};
ghost use Rattle.cm_record_layout.specs.Layout.{IsRecord, IsRecordOf, limit};

use cm_record::{RecordFault, layout_determines_class};
use cm_record_layout::MAX_WORDS;
use cm_record_reading::spell_class;

/// Replaces the buffer's content with the class file of the class whose record these words are, the
/// bytes that were defined. Returns `NotARecord` only if they are no record, and `NoMemory` only if
/// an allocation failed; what the buffer holds after an error is unspecified.
pub fn class_file(words: &[u64], out: &mut Vec<u8>) -> Result<(), RecordFault>
    ensures spelled { (c : ClassFile) → IsRecordOf c words.now
        → IfOk result (λ _. out.new.items ≡ spell c) }
    ensures record { IfOk result (λ _. IsRecord words.now) }
    ensures not_a_record { IsErrOf result RecordFault.NotARecord → IsRecord words.now → ⊥ }
{
    if words.len() as u64 > MAX_WORDS {
        return Err(RecordFault::NotARecord);
    }
    layout_determines_class();
    spell_class(words, out)
}
