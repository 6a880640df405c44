//! Tests of `cm_jar`: CRC-32, jars, entries and deflated streams.
#![tactic(auto)]

#[cfg(test)]
mod changes;
#[cfg(test)]
mod contents;
#[cfg(test)]
mod made;
#[cfg(test)]
mod samples;
#[cfg(test)]
mod streams;
#[cfg(test)]
mod time;
