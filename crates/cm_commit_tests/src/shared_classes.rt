//! A class that two loaders share.

use crate::classes::class;
use crate::fronts::{add_loader, empty};
use cm_commands::{Command, Prepared, Refusal};
use cm_front::Front;
use cm_samples::CLASS_A_TEXT;
use std::alloc::Global;
use std::test::Fail;

// Defines a class in one loader by a share of it, and in another by itself.
fn define_both(front: &mut Front, class: Prepared) -> Result<[u64; 4], Refusal> {
    let shared = class.share()?;
    Ok([
        add_loader(front, b"a")?,
        add_loader(front, b"b")?,
        front.accept(Command::Define(b"a", class))?,
        front.accept(Command::Define(b"b", shared))?,
    ])
}

/// How many words the class has in both loaders, if they are the same words.
fn same_words(front: &Front) -> Option<u32> {
    let one = front.find(b"a", b"A")?;
    let other = front.find(b"b", b"A")?;
    if one.has_same_words(other) {
        Some(one.words())
    } else {
        None
    }
}

fn define_and_find(alloc: Global, class: Prepared) -> Result<Option<u32>, Fail> {
    let mut front = empty(alloc, 8, 64)?;
    if define_both(&mut front, class) != Ok([1, 2, 3, 4]) {
        return Err("no command is refused".into());
    }
    Ok(same_words(&front))
}

#[test]
fn a_class_that_two_loaders_share_has_the_same_words(rt: HostRuntime) -> Result<(), Fail> {
    let class = class(rt.alloc(), CLASS_A_TEXT)?;
    assert_eq!(rt; define_and_find(rt.alloc(), class)?, Some(16));
    Ok(())
}
