//! Properties of the definitions themselves. Each law is the contract of a function with an empty
//! body.
ghost use Rattle.std.specs.Prelude.{◌≡◌, List, ℕ, Result};
ghost use Rattle.cm_class.specs.declared.class_file.ClassFile.{ClassFile};
ghost use Rattle.cm_class.specs.declared.fault.ShapeFault.{ShapeFault};
ghost use Rattle.cm_class.specs.Spelling.{spell, HasSpelling, AreBytes};
ghost use Rattle.cm_class.specs.Shape.{IsProperBeginning, IsAnswer};

/// No spelling is a proper beginning of another.
pub fn no_spelling_begins_another()
    ensures { (c d : ClassFile) → HasSpelling c → HasSpelling d
        → IsProperBeginning (spell c) (spell d) → ⊥ }
{}

/// A spelling belongs to one class file only.
pub fn one_class_for_one_spelling()
    ensures { (c d : ClassFile) → HasSpelling c → HasSpelling d → spell c ≡ spell d → c ≡ d }
{}

/// Bytes spell a class file or have one of the three faults, and never two of these.
pub fn each_input_has_one_answer()
    ensures some { (bytes : List ℕ) → AreBytes bytes
        → (answer : Result ClassFile ShapeFault) × IsAnswer bytes answer }
    ensures one { (bytes : List ℕ) (a b : Result ClassFile ShapeFault) → IsAnswer bytes a
        → IsAnswer bytes b → a ≡ b }
{}
