//! What is determined for the Utf8s of a class.
ghost use Rattle.std.specs.Prelude.{◌≡◌, [], map, IfOk};
ghost use Rattle.cm_descriptors.specs.Judgement.{judgement};
ghost use Rattle.cm_constraints.specs.Subject.{judgement_in};

use cm_class::{Class, Constant, Slot};
use cm_descriptors::{Judgement, judge};
use std::alloc::{AllocError, Global};

/// The result for no bytes.
pub(crate) fn judge_nothing() -> Judgement
    ensures { result ≡ judgement [] }
{
    Judgement {
        utf8: true,
        class_name: false,
        unqualified_name: false,
        method_name: false,
        field_descriptor: false,
        method_units: None,
    }
}

fn judge_slot(slot: &Slot) -> Judgement
    ensures { result ≡ judgement_in slot.now }
{
    match slot {
        Slot::Usable(Constant::Utf8(bytes)) => judge(bytes.as_slice()),
        _ => judge_nothing(),
    }
}

/// One judgement for each slot.
pub(crate) fn judgements(alloc: Global, class: &Class) -> Result<Vec<Judgement>, AllocError>
    ensures { IfOk result (λ v. v.items ≡ map judgement_in class.now.slots) }
{
    let slots = class.slots();
    let mut table = Vec::with_capacity(alloc, slots.len())?;
    for slot in slots {
        table.push(judge_slot(slot))?;
    }
    Ok(table)
}
