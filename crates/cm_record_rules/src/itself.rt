//! What the rules require of the class itself, of its super class and of its interfaces.
ghost use Rattle.std.specs.Prelude.{◌≡◌, true};
ghost use Rattle.std.specs.List.{list_all};
ghost use Rattle.cm_constraints.specs.Itself.{this_is_no_array, super_is_right};
ghost use Rattle.cm_rules.specs.Kept.{this_keeps, super_keeps, interface_keeps};

use crate::laid::LaidClass;
use cm_class::Kind;
use cm_constraints::{ACC_INTERFACE, class_flags_agree, has};
use cm_descriptors::begins_with;

const OBJECT: &[u8] = b"java/lang/Object";

/// Whether the class, by its name, isn't an array (JVMS 4.1).
fn this_is_no_array(class: &LaidClass) -> bool
    ensures { result ≡ this_is_no_array class.now }
{
    !begins_with(b'[', class.class_name(class.this_class()))
}

/// Whether an interface's super class is `java/lang/Object`, and any other class except that one
/// has a super class (JVMS 4.1).
fn super_is_right(class: &LaidClass) -> bool
    ensures { result ≡ super_is_right class.now }
{
    if has(class.flags(), ACC_INTERFACE) {
        class.class_name(class.super_class()) == OBJECT
    } else {
        class.super_class() != 0 || class.class_name(class.this_class()) == OBJECT
    }
}

/// Whether the class itself keeps all rules.
#[tactic(auto, unfolding(cm_rules::specs::Kept::this_keeps, cm_rules::specs::Fault::this_rule))]
pub(crate) fn this_keeps(class: &LaidClass) -> bool
    ensures { result ≡ this_keeps class.now }
{
    class.names(class.this_class(), Kind::Class)
        && class_flags_agree(class.flags())
        && this_is_no_array(class)
}

/// Whether its super class keeps all rules.
#[tactic(auto, unfolding(cm_rules::specs::Kept::super_keeps, cm_rules::specs::Fault::super_rule))]
pub(crate) fn super_keeps(class: &LaidClass) -> bool
    ensures { result ≡ super_keeps class.now }
{
    (class.super_class() == 0 || class.names(class.super_class(), Kind::Class))
        && super_is_right(class)
}

#[tactic(auto, unfolding(crate::specs::Kept::interface_keeps, crate::specs::Kept::interface_rule))]
fn interface_keeps(class: &LaidClass, index: u64) -> bool
    ensures { result ≡ true → interface_keeps class.now index ≡ true }
{
    match u16::try_from(index) {
        Ok(index) => class.names(index, Kind::Class),
        Err(_) => false,
    }
}

/// Whether its interfaces keep all rules.
pub(crate) fn interfaces_keep(class: &LaidClass) -> bool
    ensures { result ≡ true
        → list_all (interface_keeps class.now) class.now.interfaces ≡ true }
{
    let interfaces = class.interfaces();
    for index in interfaces {
        if !interface_keeps(class, *index) {
            return false;
        }
    }
    true
}
