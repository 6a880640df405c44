//! What is searched for in an index.

ghost use Rattle.std.specs.Prelude.{◌≡◌, Some};
ghost use Rattle.cm_index.specs.Index.{owner_of, rank, name_in, key};
ghost use Rattle.cm_index.specs.Sought.{name_sought, key_sought, IsKey};

use crate::kept::Kept;
use cm_layout::Row;

/// A name: in bytes, or as that of the class of which something is kept.
#[derive(Drop)]
pub enum Name<'a, P> {
    Bytes(&'a [u8]),
    Of(&'a P),
}

/// An owner and a name, with their fingerprint.
#[derive(Drop)]
pub struct Sought<'a, P> {
    pub fingerprint: u32,
    pub owner: Option<u64>,
    pub name: Name<'a, P>,
}

impl<'a, P: Kept> Sought<'a, P> {
    /// A name of this owner.
    pub fn of_name(owner: Option<u64>, name: &'a [u8]) -> Sought<'a, P>
        ensures key { IsKey P.mark P.name result }
        ensures owner { result.owner ≡ owner }
        ensures name { name_sought P.name result.name ≡ name.now }
    {
        Sought {
            fingerprint: P::fingerprint_of(owner, name),
            owner,
            name: Name::Bytes(name),
        }
    }

    /// The name of the class of which this is kept, as a name in the loader.
    pub fn class(loader: u64, class: &'a P) -> Sought<'a, P>
        ensures key { IsKey P.mark P.name result }
        ensures owner { result.owner ≡ Some loader }
        ensures name { name_sought P.name result.name ≡ P.name class.now }
    {
        Sought {
            fingerprint: class.fingerprint(Some(loader)),
            owner: Some(loader),
            name: Name::Of(class),
        }
    }

    /// The owner and the name of a row.
    pub fn row(row: &'a Row<P>) -> Sought<'a, P>
        ensures { key_sought P.name result
            ≡ key P.mark (rank (owner_of row.now)) (name_in P.name row.now) }
    {
        match row {
            Row::Loader(row) => Sought::of_name(None, row.name.as_bytes()),
            Row::Class(row, class) => Sought::class(row.loader, class),
        }
    }
}
