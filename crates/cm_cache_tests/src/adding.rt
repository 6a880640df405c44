//! Four threads, each of which adds loaders of its own.

use crate::running::{formatted, ready};
use cm_library::{Cache, Counts, Finished, Naming, Pass, Work};
use std::alloc::Global;
use std::sync::Wait;
use std::test::*;

const THREADS: usize = 4;

/// How many loaders each thread adds.
const EACH: usize = 50;

/// A thread's work: loaders with names that begin with a letter of its own. It returns their
/// numbers, 0 for one that was refused.
#[derive(Drop)]
struct Adder {
    letter: u8,
}

impl<R: Wait> Work<R> for Adder {
    type Output = [u64; EACH];

    ghost may_run = { λ _. Unit {0} };

    ghost keeps = { λ _ _ _. Unit {0} };

    fn run<K: Naming>(
        self,
        rt: &R,
        _alloc: Global,
        cache: &Cache<K>,
        pass: &mut Pass<K>,
    ) -> [u64; EACH] {
        // the names of every other thread need two slots of the journal
        let long = if self.letter % 2 == 0 { 3 } else { 96 };
        let mut numbers = [0; EACH];
        for (at, number) in numbers.iter_mut().enumerate() {
            let mut name = [b'~'; 96];
            name[0] = self.letter;
            name[1] = b'0' + (at / 10) as u8;
            name[2] = b'0' + (at % 10) as u8;
            *number = cache.add_loader(rt, pass, &name[..long]).unwrap_or(0);
        }
        numbers
    }
}

#[test]
fn four_threads_add_fifty_loaders_each(rt: HostRuntime) -> Result<(), Fail> {
    let alloc = rt.alloc();
    let mut adders = Vec::new(alloc);
    for letter in [b'a', b'b', b'c', b'd'] {
        adders.push(Adder { letter })?;
    }
    let Finished {
        output,
        counts,
        disk: _,
    } = ready(&rt, alloc, formatted(alloc)?)?.run_in_threads(&rt, alloc, adders)?;
    let mut numbers = Vec::new(alloc);
    for own in output? {
        numbers.extend_from_slice(&own)?;
    }
    numbers.sort_unstable();
    let each_once = numbers
        .iter()
        .enumerate()
        .all(|(at, number)| *number == at as u64 + 1);
    assert_eq!(rt;
        (counts, numbers.len(), each_once),
        (
            Counts {
                handed: 200,
                committed: 200,
                of_passes: 200,
                missing: 0,
            },
            THREADS * EACH,
            true
        )
    );
    Ok(())
}
