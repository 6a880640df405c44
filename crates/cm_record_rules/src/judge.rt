//! Checking the class of a record by the rules, using its words.
ghost use Rattle.std.specs.Prelude.{◌≡◌, true, None};
ghost use Rattle.cm_class.specs.declared.class_file.ClassFile.{ClassFile};
ghost use Rattle.cm_record_layout.specs.Layout.{IsRecord, IsRecordOf};
ghost use Rattle.cm_rules.specs.Fault.{fault};

use crate::constants::constants_keep;
use crate::cost::is_cheap;
use crate::fields::fields_keep;
use crate::itself::{interfaces_keep, super_keeps, this_keeps};
use crate::laid::LaidClass;
use crate::methods::methods_keep;
use crate::own::attributes_keep;
use crate::scratch::fill;
use crate::texts::utf8s_have_form;
use crate::twins::no_twins;
use std::alloc::Global;

/// Whether the class is found to keep all rules.
#[tactic(auto, using(cm_rules::proofs::no_fault))]
fn keeps_rules(alloc: Global, class: &LaidClass) -> bool
    ensures { result ≡ true → fault class.now ≡ None }
{
    is_cheap(class)
        && utf8s_have_form(class)
        && constants_keep(class)
        && this_keeps(class)
        && super_keeps(class)
        && interfaces_keep(class)
        && fields_keep(class)
        && methods_keep(class)
        && attributes_keep(class)
        && no_twins(alloc, class, &class.fields())
        && no_twins(alloc, class, &class.methods())
}

/// Whether the class of a record is found to keep all class rules: a quick test over the record's
/// words, without building the class. Only `true` is a promise: if it returns `false`, the class
/// may still keep all rules, which `first_fault` of `cm_rules` decides.
///
/// The scratch is used by this call alone, and one can be reused for any number of records: it
/// grows to the size of the words and one byte per constant. Returns `false` if an allocation
/// failed.
pub fn judge_words(alloc: Global, scratch: &mut Vec<u8>, words: &[u64]) -> bool
    requires { IsRecord words.now }
    ensures { result ≡ true → (c : ClassFile) → IsRecordOf c words.now → fault c ≡ None }
{
    match fill(scratch, words) {
        Ok(()) => {
            let (bytes, tags) = scratch.split_at(8 * words.len());
            keeps_rules(alloc, &LaidClass::new(words, bytes, tags))
        }
        Err(_) => false,
    }
}
