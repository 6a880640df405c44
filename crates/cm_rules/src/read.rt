ghost use Rattle.std.specs.Prelude.{◌≡◌, ◌⊎◌, IfOk, IfErr, Result};
ghost use Rattle.cm_class.specs.declared.class_file.ClassFile.{ClassFile};
ghost use Rattle.cm_rules.specs.declared.fault.ClassFault.{ClassFault};
ghost use Rattle.cm_rules.specs.Fault.{fault, first_of, all_rules};
ghost use Rattle.cm_class.specs.Shape.{IsSpelling};
ghost use Rattle.cm_rules.specs.Answer.{SpellsRightClass, IsClassFault, IsReading, IsUnlessRefused};

use crate::fault::{BadClass, ClassFault};
use crate::findings::Findings;
use crate::keeps::keeps_rules;
use crate::rule::{Broken, Rule};
use crate::search::broken_spot;
use cm_class::{Class, read_shape};
use std::alloc::{AllocError, Global};

/// The rules, in the order in which they are checked.
const RULES: [Rule; 24] = [
    Rule::Utf8Form,
    Rule::EntryKinds,
    Rule::HandleKind,
    Rule::ClassName,
    Rule::FieldReference,
    Rule::MethodReference,
    Rule::DynamicCall,
    Rule::MethodType,
    Rule::HandleName,
    Rule::ClassFlags,
    Rule::ThisClass,
    Rule::SuperClass,
    Rule::FieldName,
    Rule::FieldFlags,
    Rule::FieldTwice,
    Rule::MethodName,
    Rule::MethodUnits,
    Rule::MethodFlags,
    Rule::MethodTwice,
    Rule::CodeCount,
    Rule::CodeForm,
    Rule::MemberAttributes,
    Rule::ClassAttributes,
    Rule::BootstrapMethods,
];

/// The first of the rules that the class breaks, with the first spot.
fn first_of(findings: &Findings, rules: &[Rule]) -> Option<Broken>
    ensures { result ≡ first_of findings.now.class.now rules.now }
{
    for rule in rules {
        match broken_spot(findings, *rule) {
            Some(spot) => return Some(Broken { rule: *rule, spot }),
            None => {}
        }
    }
    None
}

/// The first rule that a class breaks, with the first spot at which it does; `None` if it keeps all
/// of them. Each Utf8 is checked once, however many constants and members name it. The first broken
/// rule is searched for only if a single pass finds that the class breaks some rule. Returns an
/// `Err` only if an allocation failed, which says nothing about the class.
#[tactic(auto, unfolding(crate::specs::Fault::fault))]
pub fn first_fault(alloc: Global, class: &Class) -> Result<Option<Broken>, AllocError>
    ensures { IfOk result (λ found. found ≡ fault class.now) }
{
    let findings = Findings::new(alloc, class)?;
    if keeps_rules(&findings) {
        return Ok(None);
    }
    Ok(first_of(&findings, &RULES))
}

fn read_and_judge<'a>(alloc: Global, bytes: &'a [u8]) -> Result<Class<'a>, ClassFault>
    ensures { IsUnlessRefused bytes.now result }
{
    let class = read_shape(alloc, bytes)?;
    match first_fault(alloc, &class)? {
        Some(broken) => Err(ClassFault::Bad(BadClass::Rule(broken))),
        None => Ok(class),
    }
}

/// Reads a class of version 52.0 from all of the bytes, and checks it by the rules.
///
/// Fails exactly if the bytes spell no class file, with the one fault of their shape; if the class
/// breaks a rule, with the first such rule and its first spot; or with `NoMemory`, if they spell a
/// class file and an allocation failed: a fault of their shape is reported in any case.
pub fn read_class<'a>(alloc: Global, bytes: &'a [u8]) -> Result<Class<'a>, ClassFault>
    ensures ok { IfOk result (SpellsRightClass bytes.now) }
    ensures fault { IfErr result (IsClassFault bytes.now) }

    // The result is the correct answer, unless the bytes spell a class file and an allocation
    // failed.
    ensures only { (answer : Result ClassFile ClassFault) → IsReading bytes.now answer
        → (result ≡ answer) ⊎ ((result ≡ Err ClassFault.NoMemory) × IsSpelling bytes.now) }
{
    read_and_judge(alloc, bytes)
}
