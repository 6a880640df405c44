//! Works that return different things.

use crate::running::{formatted, ready};
use cm_library::{Cache, Finished, Naming, Pass, Refusal, Work};
use std::alloc::Global;
use std::sync::Wait;
use std::test::*;

/// Adds a loader of this name, and returns the name.
#[derive(Drop)]
struct Named(u8);

impl<R: Wait> Work<R> for Named {
    ghost use Rattle.std.specs.Prelude.{◌≡◌};

    type Output = u8;

    ghost may_run = { λ _. Unit {0} };

    ghost keeps = { λ work output _. output ≡ work.0 };

    fn run<K: Naming>(self, rt: &R, _alloc: Global, cache: &Cache<K>, pass: &mut Pass<K>) -> u8 {
        let Named(name) = self;
        let _number = cache.add_loader(rt, pass, &[name]);
        name
    }
}

#[test]
fn outputs_come_in_the_order_of_the_works(rt: HostRuntime) -> Result<(), Fail> {
    let alloc = rt.alloc();
    let mut works = Vec::new(alloc);
    for name in [b'd', b'a', b'c', b'b'] {
        works.push(Named(name))?;
    }
    let Finished {
        output,
        counts,
        disk: _,
    } = ready(&rt, alloc, formatted(alloc)?)?.run_in_threads(&rt, alloc, works)?;
    assert_eq!(rt;
        (output?.as_slice(), counts.committed),
        (b"dacb".as_slice(), 4)
    );
    Ok(())
}

/// One more than a cache has passes.
const TOO_MANY: usize = 65_537;

#[test]
fn more_works_than_passes_are_refused(rt: HostRuntime) -> Result<(), Fail> {
    let alloc = rt.alloc();
    let mut works = Vec::new(alloc);
    for _ in 0..TOO_MANY {
        works.push(Named(b'a'))?;
    }
    let Finished {
        output,
        counts,
        disk: _,
    } = ready(&rt, alloc, formatted(alloc)?)?.run_in_threads(&rt, alloc, works)?;
    assert!(rt; matches!(output, Err(Refusal::NumbersSpent)));
    assert_eq!(rt; (counts.handed, counts.missing), (0, 0));
    Ok(())
}
