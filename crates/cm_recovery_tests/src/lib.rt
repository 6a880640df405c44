//! Tests of files: slots, what a file's contents stand for or how they are damaged, making and
//! opening files, and checking them.
#![tactic(auto)]

#[cfg(test)]
mod damages;
#[cfg(test)]
mod file_samples;
#[cfg(test)]
mod file_use;
#[cfg(test)]
mod found;
#[cfg(test)]
mod halves;
#[cfg(test)]
mod in_threads;
#[cfg(test)]
mod long_names;
#[cfg(test)]
mod making_files;
#[cfg(test)]
mod older_files;
#[cfg(test)]
mod reading_files;
#[cfg(test)]
mod reports;
#[cfg(test)]
mod slots;
#[cfg(test)]
mod standing;
#[cfg(test)]
mod stored_calls;
