//! Long runs of entries: beside a plain list of rows, and with more names than one block of the
//! index holds.

ghost use Rattle.std.specs.Prelude.{◌≡◌};

use crate::plain::Plain;
use crate::random::{Random, name_of};
use crate::samples::{loader, offer, sized_book, take, unload};
use cm_rows::LiveRows;
use std::alloc::Global;
use std::test::*;

// Whether both have the same last chunk for each row's loader.
fn lasts_agree(book: &LiveRows<()>, plain: &Plain) -> bool {
    plain
        .rows
        .iter()
        .all(|row| book.last(row.loader) == plain.last(row.loader))
}

// Offers a random entry to both; returns whether it breaks no rule.
fn offer_to_both(
    book: &mut LiveRows<()>,
    plain: &mut Plain,
    random: &mut Random,
    number: u64,
) -> Result<bool, Fail>
    ensures { book.new.sizes ≡ book.old.sizes }
{
    let entry = random.entry(plain, number)?;
    let expected = plain.apply(&entry)?;
    if offer(book, number, entry)? != expected {
        return Err("another rule".into());
    }
    if book.len() != plain.rows.len() {
        return Err("another number of rows".into());
    }
    if book.slots() != plain.taken() {
        return Err("another number of slots".into());
    }
    Ok(expected.is_none())
}

// Offers entries to both; returns how many of them break no rule.
fn run(book: &mut LiveRows<()>, plain: &mut Plain) -> Result<u32, Fail> {
    let mut random = Random(1);
    let mut kept = 0u32;
    for number in 1..6000 {
        if offer_to_both(book, plain, &mut random, number)? {
            kept = kept.wrapping_add(1);
        }
        if number % 64 == 0 && !lasts_agree(book, plain) {
            return Err("another last chunk".into());
        }
    }
    Ok(kept)
}

fn run_both(alloc: Global) -> Result<u32, Fail> {
    let mut book = sized_book(alloc, 2, 256)?;
    run(&mut book, &mut Plain::new(alloc))
}

#[test]
fn agrees_with_a_plain_list_of_rows(rt: HostRuntime) -> Result<(), Fail> {
    let kept = run_both(rt.alloc())?;
    assert!(rt; kept > 1000, "{kept}");
    Ok(())
}

// Adds many loaders, two of three of which are unloaded at once.
fn add_many(book: &mut LiveRows<()>) -> Result<(), Fail> {
    for at in 1..9000 {
        let number = 2 * at;
        take(book, number, loader(number, &name_of(at))?)?;
        if at % 3 != 0 {
            take(book, number + 1, unload(number))?;
        }
    }
    Ok(())
}

// Whether the third that is left is found, each loader by its name, and no other is.
fn tells_a_third(book: &LiveRows<()>) -> bool {
    for at in 1..9000 {
        let expected = if at % 3 == 0 { Some(2 * at) } else { None };
        if book.loader(&name_of(at)) != expected {
            return false;
        }
    }
    true
}

fn tells_of_many(book: &mut LiveRows<()>) -> Result<bool, Fail> {
    add_many(book)?;
    Ok(tells_a_third(book))
}

fn adds_and_tells(alloc: Global) -> Result<bool, Fail> {
    let mut book = sized_book(alloc, 1, 8192)?;
    tells_of_many(&mut book)
}

// Loaders are found by name also if the index has many blocks, and after it was swept.
#[test]
fn finds_each_of_many_loaders(rt: HostRuntime) -> Result<(), Fail> {
    assert!(rt; adds_and_tells(rt.alloc())?);
    Ok(())
}
