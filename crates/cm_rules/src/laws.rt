//! Properties of the definitions themselves. Each law is the contract of a function with an empty
//! body.
ghost use Rattle.std.specs.Prelude.{◌≡◌, Some, None};
ghost use Rattle.cm_class.specs.declared.class_file.ClassFile.{ClassFile};
ghost use Rattle.cm_rules.specs.declared.rule.Broken.{Broken};
ghost use Rattle.cm_rules.specs.Fault.{fault};
ghost use Rattle.cm_rules.specs.Least.{KeepsRules, IsFirstFault};

/// The fault of a class is the first of the rules that it breaks, at the first spot at which it
/// does; a class without a fault keeps each rule at each of its spots.
pub fn fault_is_the_first()
    ensures broken { (c : ClassFile) (broken : Broken)
        → fault c ≡ Some broken → IsFirstFault c broken }
    ensures kept { (c : ClassFile) → fault c ≡ None → KeepsRules c }
{}
