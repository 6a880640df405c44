//! Worked examples of `cm_cache` and `cm_library`, through their public functions.
#![tactic(auto)]

#[cfg(test)]
mod adding;
#[cfg(test)]
mod calling;
#[cfg(test)]
mod fused;
// Its definition is in specs/, which are also read without tests.
pub mod held_disk;
#[cfg(test)]
mod holding;
#[cfg(test)]
mod library;
#[cfg(test)]
mod ordering;
#[cfg(test)]
mod running;
#[cfg(test)]
mod two_threads;
