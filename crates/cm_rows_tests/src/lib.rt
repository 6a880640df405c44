//! Tests of rows: where parts of a region are, entries and the rows after them, and groups.
#![tactic(auto)]

#[cfg(test)]
mod classes;
#[cfg(test)]
mod entries;
#[cfg(test)]
mod groups;
#[cfg(test)]
mod plain;
#[cfg(test)]
mod random;
#[cfg(test)]
mod regions;
#[cfg(test)]
mod run;
#[cfg(test)]
mod samples;
