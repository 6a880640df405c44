ghost use Rattle.std.specs.Prelude.{◌≡◌, IfOk};
ghost use Rattle.cm_duplicates.specs.Duplicates.{first_duplicate};
ghost use Rattle.cm_rules.specs.Sizes.{SizesFit};

use cm_class::Class;
use cm_constraints::Subject;
use cm_duplicates::{first_duplicate_field, first_duplicate_method};
use std::alloc::{AllocError, Global};

/// A class, with everything about it that needs an allocation to find out.
#[derive(Drop)]
pub(crate) struct Findings<'a> {
    pub(crate) class: &'a Class<'a>,
    pub(crate) subject: Subject<'a>,
    /// The first field with the name and the descriptor of one before it.
    pub(crate) duplicate_field: Option<u16>,
    pub(crate) duplicate_method: Option<u16>,
    ghost same_class: { subject.class.now ≡ class.now },
    ghost sized: { SizesFit class.now },
    ghost field_is: { duplicate_field ≡ first_duplicate class.now class.now.fields },
    ghost method_is: { duplicate_method ≡ first_duplicate class.now class.now.methods },
}

impl<'a> Findings<'a> {
    pub(crate) fn new(alloc: Global, class: &'a Class<'a>) -> Result<Findings<'a>, AllocError>
        ensures { IfOk result (λ findings. findings.class.now ≡ class.entry.now) }
    {
        class.invariant_holds();
        Ok(Findings {
            class,
            subject: Subject::new(alloc, class)?,
            duplicate_field: first_duplicate_field(alloc, class)?,
            duplicate_method: first_duplicate_method(alloc, class)?,
        })
    }
}
