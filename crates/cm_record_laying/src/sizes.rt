//! The numbers that the head of a record is made of.
ghost use Rattle.std.specs.Prelude.{◌≡◌, IfSome};
ghost use Rattle.cm_record_laying.specs.Heads.{head_of};

use cm_record_layout::{DIRECTORY_AT, four_numbers};

/// The numbers of a class file that its record's head repeats.
#[derive(Clone, Copy, Debug)]
pub(crate) struct Numbers {
    /// One more than the last index of the pool.
    pub slots: u16,
    pub flags: u16,
    pub this_class: u16,
    pub super_class: u16,
    pub interfaces: u16,
    pub fields: u16,
    pub methods: u16,
    pub attributes: u16,
}

/// The head of the record of a class file with these numbers, with the numbers of words that its
/// attributes and its runs take. `None` if it is far too long.
pub(crate) fn head_of(numbers: &Numbers, attributes: u64, runs: u64) -> Option<[u64; DIRECTORY_AT]>
    ensures { IfSome result (λ head. head ≡ head_of numbers.now attributes runs) }
{
    let class = four_numbers(
        numbers.flags,
        numbers.this_class,
        numbers.super_class,
        numbers.interfaces,
    );
    let counts = four_numbers(
        numbers.slots,
        numbers.fields,
        numbers.methods,
        numbers.attributes,
    );
    let directory_at = DIRECTORY_AT as u64;
    let interfaces_at = directory_at + u64::from(numbers.slots);
    let members_at = interfaces_at + u64::from(numbers.interfaces);
    let attributes_at = members_at + 2 * (u64::from(numbers.fields) + u64::from(numbers.methods));
    let runs_at = attributes_at.checked_add(attributes)?;
    let total = runs_at.checked_add(runs)?;
    Some([
        total,
        class,
        counts,
        directory_at,
        interfaces_at,
        members_at,
        attributes_at,
        runs_at,
    ])
}
