//! Properties of the definitions themselves. Each law is the contract of a function with an empty
//! body.
ghost use Rattle.std.specs.Prelude.{◌≡◌, ◌↔◌, ℕ, List, Some, None};
ghost use Rattle.cm_class.specs.declared.class_file.ClassFile.{ClassFile};
ghost use Rattle.cm_class.specs.declared.class_file.Member.{Member};
ghost use Rattle.cm_duplicates.specs.Duplicates.{first_duplicate};
ghost use Rattle.cm_duplicates.specs.First.{IsDuplicate, IsFirstDuplicate};

/// The first duplicate is the first place whose member has the name and the descriptor of one
/// before it, and there is none exactly if no two members have both.
pub fn first_duplicate_is_the_first()
    ensures some { (c : ClassFile) (members : List Member) (place : ℕ) →
        (first_duplicate c members ≡ Some place) ↔ IsFirstDuplicate c members place }
    ensures none { (c : ClassFile) (members : List Member) →
        (first_duplicate c members ≡ None) ↔ ((place : ℕ) → ¬ IsDuplicate c members place) }
{}
