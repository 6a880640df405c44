//! Tests of class files: reading, names, duplicates, records, and replies about them.
#![tactic(auto)]

#[cfg(test)]
mod crowded_records;
#[cfg(test)]
mod duplicates;
#[cfg(test)]
mod faults;
#[cfg(test)]
mod laying;
#[cfg(test)]
mod member_samples;
#[cfg(test)]
mod names;
#[cfg(test)]
mod not_records;
#[cfg(test)]
mod parts;
#[cfg(test)]
mod preparing;
#[cfg(test)]
mod record_layout;
#[cfg(test)]
mod record_names;
#[cfg(test)]
mod record_parts;
#[cfg(test)]
mod record_samples;
#[cfg(test)]
mod replies;
#[cfg(test)]
mod samples;
#[cfg(test)]
mod streams;
