//! What the record layout means, as laws.
ghost use Rattle.std.specs.Prelude.{◌≡◌};
ghost use Rattle.cm_class.specs.declared.class_file.ClassFile.{ClassFile};
ghost use Rattle.cm_class.specs.Spelling.{HasSpelling};
ghost use Rattle.cm_record_layout.specs.Layout.{lay};

/// A record determines its class: no two classes that have a spelling have one layout.
pub fn layout_determines_class()
    ensures { (c d : ClassFile) → HasSpelling c → HasSpelling d → lay c ≡ lay d → c ≡ d }
{}
