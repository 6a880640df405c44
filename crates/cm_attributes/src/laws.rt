//! Properties of the definitions themselves. Each law is the contract of a function with an empty
//! body.
ghost use Rattle.std.specs.Prelude.{◌≡◌, ℕ, List, true};
ghost use Rattle.cm_class.specs.declared.class_file.ClassFile.{ClassFile};
ghost use Rattle.cm_class.specs.Spelling.{AreBytes};
ghost use Rattle.cm_attributes.specs.declared.known.Known.{Known};
ghost use Rattle.cm_attributes.specs.Contents.{is_content, is_value_of};
ghost use Rattle.cm_attributes.specs.Parts.{IsContent, IsValueOf};

/// The bytes accepted as an attribute's content are exactly the listed parts, one after another,
/// each of which passes its test; and all such bytes are accepted.
pub fn content_is_its_parts()
    ensures parts { (c : ClassFile) (which : Known) (bytes : List ℕ) → AreBytes bytes
        → is_content c which bytes ≡ true → IsContent c which bytes }
    ensures all { (c : ClassFile) (which : Known) (bytes : List ℕ)
        → IsContent c which bytes → is_content c which bytes ≡ true }
{}

/// The bytes accepted as the value of a field of a descriptor are exactly the index of a constant
/// of its kind; and all such bytes are accepted.
pub fn value_is_its_part()
    ensures part { (c : ClassFile) (descriptor bytes : List ℕ) → AreBytes bytes
        → is_value_of c descriptor bytes ≡ true → IsValueOf c descriptor bytes }
    ensures all { (c : ClassFile) (descriptor bytes : List ℕ)
        → IsValueOf c descriptor bytes → is_value_of c descriptor bytes ≡ true }
{}
