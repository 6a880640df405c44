//! Tests of `cm_record_parts`: what is read of a record's class.
#![tactic(auto)]

#[cfg(test)]
mod parts;
#[cfg(test)]
mod sample;
