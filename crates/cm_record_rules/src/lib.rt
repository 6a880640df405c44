//! Whether the class of a record keeps the class rules, checked over the record's words.
#![tactic(auto)]

mod attributes;
mod bootstrap;
mod code;
mod constant;
mod constants;
mod contained;
mod contents;
mod cost;
mod fields;
mod itself;
mod judge;
mod known;
mod laid;
mod members;
mod methods;
mod names;
mod own;
mod parts;
mod plain;
mod scratch;
mod texts;
mod twins;

pub use judge::judge_words;
