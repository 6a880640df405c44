//! Tests of checking records over their words, compared with checking their classes.
#![tactic(auto)]

#[cfg(test)]
mod both_ways;
#[cfg(test)]
mod sample;
