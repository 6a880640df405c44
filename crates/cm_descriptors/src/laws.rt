//! Properties of the definitions themselves. Each law is the contract of a function with an empty
//! body.
ghost use Rattle.std.specs.Prelude.{◌≡◌, ◌↔◌, ℕ, List, Some, IsTrue};
ghost use Rattle.cm_descriptors.specs.Forms.{has_utf8_form, is_class_name, is_field_descriptor};
ghost use Rattle.cm_descriptors.specs.Forms.{is_method_descriptor, method_units};
ghost use Rattle.cm_descriptors.specs.Characters.{AreCharacters};
ghost use Rattle.cm_descriptors.specs.ClassNames.{AreJoinedNames};
ghost use Rattle.cm_descriptors.specs.Types.{SpellsFieldType, SpellsMethodType};

/// A Utf8 has its form exactly if it is a sequence of characters (JVMS 4.4.7).
pub fn utf8_is_characters()
    ensures { (bytes : List ℕ) → IsTrue (has_utf8_form bytes) ↔ AreCharacters bytes }
{}

/// A class name is exactly unqualified names joined by `/` (JVMS 4.2.1).
pub fn class_name_is_joined_names()
    ensures { (bytes : List ℕ) → IsTrue (is_class_name bytes) ↔ AreJoinedNames bytes }
{}

/// A field descriptor is exactly the spelling of a type (JVMS 4.3.2).
pub fn field_descriptor_spells_a_type()
    ensures { (bytes : List ℕ) → IsTrue (is_field_descriptor bytes) ↔ SpellsFieldType bytes }
{}

/// A method descriptor is exactly the spelling of the types of parameters and of what is returned
/// (JVMS 4.3.3), and its units are those of the parameters.
pub fn method_descriptor_spells_types()
    ensures form { (bytes : List ℕ) →
        IsTrue (is_method_descriptor bytes) ↔ (n : ℕ) × SpellsMethodType bytes n }
    ensures units { (bytes : List ℕ) (n : ℕ) →
        method_units bytes ≡ Some n ↔ SpellsMethodType bytes n }
{}
