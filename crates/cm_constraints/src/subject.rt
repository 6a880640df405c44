ghost use Rattle.std.specs.Prelude.{◌≡◌, map, slice_get, IfOk};
ghost use Rattle.std.specs.List.{list_all};
ghost use Rattle.cm_class.specs.Names.{constant_in, utf8};
ghost use Rattle.cm_descriptors.specs.Forms.{is_class_name, is_unqualified_name, is_method_name};
ghost use Rattle.cm_descriptors.specs.Forms.{is_field_descriptor, is_array_descriptor};
ghost use Rattle.cm_descriptors.specs.Forms.{is_method_descriptor, method_units};
ghost use Rattle.cm_descriptors.specs.Judgement.{judgement};
ghost use Rattle.cm_attributes.specs.Contents.{bootstrap_count as bootstrap_count_of};
ghost use Rattle.cm_constraints.specs.Constants.{utf8_has_form, in_slot};
ghost use Rattle.cm_constraints.specs.Subject.{judgement_in};

use crate::utf8s::{judge_nothing, judgements};
use cm_attributes::bootstrap_count;
use cm_class::Class;
use cm_descriptors::{Judgement, begins_with};
use std::alloc::{AllocError, Global};

fn judgement_at(table: &[Judgement], place: usize) -> Option<Judgement>
    ensures { result ≡ slice_get table.now place }
{
    table.get(place).copied()
}

fn all_have_form(table: &[Judgement]) -> bool
    ensures { result ≡ list_all (λ found. found.utf8) table.now }
{
    table.iter().all(|found| found.utf8)
}

/// A class, with what was determined for each of its Utf8s, so that none is read twice, however
/// many constants and members name it.
#[derive(Drop)]
pub struct Subject<'a> {
    pub class: &'a Class<'a>,
    /// One entry for each slot of the pool.
    table: Vec<Judgement>,
    bootstrap_count: u16,
    ghost of_class: { table.items ≡ map judgement_in class.now.slots },
    ghost count_is: { bootstrap_count ≡ bootstrap_count_of class.now },
}

impl<'a> Subject<'a> {
    /// Examines the class. It allocates a few bytes per constant.
    pub fn new(alloc: Global, class: &'a Class<'a>) -> Result<Subject<'a>, AllocError>
        ensures { IfOk result (λ subject. subject.class.now ≡ class.entry.now) }
    {
        let table = judgements(alloc, class)?;
        Ok(Subject {
            class,
            table,
            bootstrap_count: bootstrap_count(class),
        })
    }

    /// How many bootstrap methods the class has.
    pub(crate) fn bootstrap_count(&self) -> u16
        ensures { result ≡ bootstrap_count_of self.now.class.now }
    {
        self.bootstrap_count
    }

    /// Whether each Utf8 of the pool has the right form (JVMS 4.4.7).
    #[tactic(auto, using(crate::proofs::Tables::utf8s_in_table))]
    pub fn utf8s_have_form(&self) -> bool
        ensures { result ≡ list_all (in_slot utf8_has_form) self.now.class.now.slots }
    {
        all_have_form(&self.table)
    }

    /// What was determined for the Utf8 at an index; if there is none, the result for no bytes.
    pub(crate) fn judgement(&self, index: u16) -> Judgement
        ensures { result ≡ judgement (utf8 self.now.class.now index) }
    {
        if index == 0 {
            return judge_nothing();
        }
        match judgement_at(&self.table, usize::from(index) - 1) {
            Some(found) => found,
            None => judge_nothing(),
        }
    }

    /// Whether the Utf8 at an index is a class name.
    #[tactic(auto, unfolding(cm_descriptors::specs::Judgement::judgement))]
    pub(crate) fn names_class_name(&self, index: u16) -> bool
        ensures { result ≡ is_class_name (utf8 self.now.class.now index) }
    {
        self.judgement(index).class_name
    }

    /// Whether the Utf8 at an index is an unqualified name.
    #[tactic(auto, unfolding(cm_descriptors::specs::Judgement::judgement))]
    pub(crate) fn names_unqualified_name(&self, index: u16) -> bool
        ensures { result ≡ is_unqualified_name (utf8 self.now.class.now index) }
    {
        self.judgement(index).unqualified_name
    }

    /// Whether the Utf8 at an index is a method's name.
    #[tactic(auto, unfolding(cm_descriptors::specs::Judgement::judgement))]
    pub(crate) fn names_method_name(&self, index: u16) -> bool
        ensures { result ≡ is_method_name (utf8 self.now.class.now index) }
    {
        self.judgement(index).method_name
    }

    /// Whether the Utf8 at an index is a field descriptor.
    #[tactic(auto, unfolding(cm_descriptors::specs::Judgement::judgement))]
    pub(crate) fn names_field_descriptor(&self, index: u16) -> bool
        ensures { result ≡ is_field_descriptor (utf8 self.now.class.now index) }
    {
        self.judgement(index).field_descriptor
    }

    /// The units of the method descriptor at an index.
    #[tactic(auto, unfolding(cm_descriptors::specs::Judgement::judgement))]
    pub(crate) fn method_units(&self, index: u16) -> Option<u8>
        ensures { result ≡ method_units (utf8 self.now.class.now index) }
    {
        self.judgement(index).method_units
    }

    /// Whether the Utf8 at an index is a method descriptor.
    pub(crate) fn names_method_descriptor(&self, index: u16) -> bool
        ensures { result ≡ is_method_descriptor (utf8 self.now.class.now index) }
    {
        self.method_units(index).is_some()
    }

    /// Whether the Utf8 at an index is the descriptor of an array.
    pub(crate) fn names_array_descriptor(&self, index: u16) -> bool
        ensures { result ≡ is_array_descriptor (utf8 self.now.class.now index) }
    {
        begins_with(b'[', self.class.utf8(index)) && self.names_field_descriptor(index)
    }
}
