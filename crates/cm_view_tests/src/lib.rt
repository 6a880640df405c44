//! Tests of views: what is found in the bytes of whole and of changed files.
#![tactic(auto)]

#[cfg(test)]
mod answers;
#[cfg(test)]
mod changed_files;
#[cfg(test)]
mod viewed_file;
#[cfg(test)]
mod whole_file;
