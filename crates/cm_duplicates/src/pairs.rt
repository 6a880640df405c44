//! A small number of members, compared pair by pair.
ghost use Rattle.std.specs.Prelude.{◌≡◌, ◌^◌, ◌<◌, not, length, bytes_eq};
ghost use Rattle.std.specs.List.{list_any};
ghost use Rattle.cm_class.specs.Names.{utf8};
ghost use Rattle.cm_duplicates.specs.Duplicates.{same_member, first_duplicate};

use cm_class::{Class, Member};

/// Whether two indexes name the same bytes. Bytes of one slot aren't compared.
fn same_utf8(class: &Class, a: u16, b: u16) -> bool
    ensures { result ≡ bytes_eq (utf8 class.now a) (utf8 class.now b) }
{
    a == b || class.utf8(a) == class.utf8(b)
}

pub(crate) fn same_member(class: &Class, a: &Member, b: &Member) -> bool
    ensures { result ≡ same_member class.now a.now b.now }
{
    same_utf8(class, a.name, b.name) && same_utf8(class, a.descriptor, b.descriptor)
}

/// Whether a member is the same as one of these.
fn is_among(class: &Class, member: &Member, others: &[Member]) -> bool
    ensures { result ≡ list_any (same_member class.now member.now) others.now }
{
    others.iter().any(|other| same_member(class, member, other))
}

/// The first duplicate, for few members: the time grows with the square of their number.
pub(crate) fn first_by_pairs(class: &Class, members: &[Member]) -> Option<u16>
    requires { length members.now < 2 ^ 16 }
    ensures { result ≡ first_duplicate class.now members.now }
{
    for (place, member) in members.iter().enumerate() {
        if is_among(class, member, &members[..place]) {
            return Some(place as u16);
        }
    }
    None
}
