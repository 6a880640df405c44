//! The order of rows.
ghost use Rattle.std.specs.Prelude.{◌≡◌};
ghost use Rattle.std.specs.Ordering.{is_lt, nat_cmp, ordering_then};
ghost use Rattle.cm_view_index.specs.Order.{key_of, cmp_keys};

use crate::row::{ViewRow, name_of};
use std::cmp::Ordering;

/// How a row's mark and loader compare with these.
fn cmp_numbers(row: &ViewRow, mark: u32, loader: u64) -> Ordering
    ensures { result ≡ ordering_then (nat_cmp row.now.mark mark) (nat_cmp row.now.loader loader) }
{
    row.mark.cmp(&mark).then(row.loader.cmp(&loader))
}

/// How two rows compare: by mark, then loader, then the name that is shown. Names are looked at
/// only if nothing else differs.
pub fn cmp_rows(bytes: &[u8], one: &ViewRow, other: &ViewRow) -> Ordering
    ensures { result ≡ cmp_keys (key_of bytes.now one.now) (key_of bytes.now other.now) }
{
    match cmp_numbers(one, other.mark, other.loader) {
        Ordering::Equal => name_of(bytes, one).cmp(name_of(bytes, other)),
        order => order,
    }
}

/// Whether a row comes before those of this mark, loader and name.
pub fn is_before(bytes: &[u8], row: &ViewRow, mark: u32, loader: u64, name: &[u8]) -> bool
    ensures { result ≡ is_lt (cmp_keys (key_of bytes.now row.now)
        (record { mark = mark; loader = loader; name = name.now })) }
{
    match cmp_numbers(row, mark, loader) {
        Ordering::Less => true,
        Ordering::Equal => name_of(bytes, row).cmp(&name).is_lt(),
        Ordering::Greater => false,
    }
}
