//! Tests of a cache whose device calls are made by its caller.
#![tactic(auto)]

#[cfg(test)]
mod device;
#[cfg(test)]
mod files;
#[cfg(test)]
mod steps;
