//! What shown names mean, as laws.
ghost use Rattle.std.specs.Prelude.{◌≡◌, ◌*◌, ℕ, length, Some, None};
ghost use Rattle.cm_class.specs.declared.class_file.ClassFile.{ClassFile};
ghost use Rattle.cm_class.specs.Names.{class_name_of};
ghost use Rattle.cm_record_layout.specs.Layout.{IsRecordOf};
ghost use Rattle.cm_record_layout.specs.Packing.{packed_into};
ghost use Rattle.cm_rules.specs.Fault.{fault};
ghost use Rattle.cm_shown_names.specs.Shown.{name_shown};
ghost use Rattle.cm_shown_names.specs.Itself.{NamesItself};

use cm_rules::fault_is_the_first;

/// The bytes of a record show the name of its class, if that class names itself.
pub fn record_shows_name(bytes: &[u8])
    ensures { (n : ℕ) (c : ClassFile) → length bytes.now ≡ 8 * n
        → IsRecordOf c (packed_into n bytes.now) → NamesItself c
        → name_shown bytes.now ≡ Some (class_name_of c) }
{}

/// A class that keeps the rules names itself.
pub fn kept_names_itself()
    ensures { (c : ClassFile) → fault c ≡ None → NamesItself c }
{
    fault_is_the_first();
}
