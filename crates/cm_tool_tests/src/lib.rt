//! Tests of scripts: lines, readers, writers, failing disks, region files, disks that make no
//! calls, and what is reported about caches.
#![tactic(auto)]

#[cfg(test)]
mod deferred;
#[cfg(test)]
mod disks;
#[cfg(test)]
mod line_forms;
#[cfg(test)]
mod line_readers;
#[cfg(test)]
mod line_writers;
#[cfg(test)]
mod maintenance_disks;
#[cfg(test)]
mod maintenance_faults;
#[cfg(test)]
mod maintenance_writers;
#[cfg(test)]
mod region_files;
#[cfg(test)]
mod scripts;
#[cfg(test)]
mod streams;
#[cfg(test)]
mod telling;
#[cfg(test)]
mod trimming;
#[cfg(test)]
mod workers;
