//! Tests of accepted caches and what is listed of them, committers, and worlds over disks in
//! memory.
#![tactic(auto)]

#[cfg(test)]
mod calls;
#[cfg(test)]
mod checkpoints;
#[cfg(test)]
mod classes;
#[cfg(test)]
mod commands;
#[cfg(test)]
mod committers;
#[cfg(test)]
mod events;
#[cfg(test)]
mod fronts;
#[cfg(test)]
mod groups;
#[cfg(test)]
mod list_calls;
#[cfg(test)]
mod lists;
#[cfg(test)]
mod long_names;
#[cfg(test)]
mod made_again;
#[cfg(test)]
mod moves;
#[cfg(test)]
mod offers;
#[cfg(test)]
mod random;
#[cfg(test)]
mod refused;
#[cfg(test)]
mod shared_classes;
#[cfg(test)]
mod small_files;
#[cfg(test)]
mod stores;
#[cfg(test)]
mod trims;
#[cfg(test)]
mod turns;
#[cfg(test)]
mod words;
