//! Tests of imports, through the public items of `cm_importing` and `cm_found_classes`.
#![tactic(auto)]

#[cfg(test)]
mod classes;
#[cfg(test)]
mod crashes;
#[cfg(test)]
mod entries;
#[cfg(test)]
mod groups;
#[cfg(test)]
mod imports;
#[cfg(test)]
mod names;
