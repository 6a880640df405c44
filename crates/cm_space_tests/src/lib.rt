//! Tests of word buffers, of the pool beside a plain one, of arenas and of spaces.
#![tactic(auto)]

#[cfg(test)]
mod arenas;
#[cfg(test)]
mod held_chunks;
#[cfg(test)]
mod plain_pool;
#[cfg(test)]
mod pool_bodies;
#[cfg(test)]
mod pools;
#[cfg(test)]
mod samples;
#[cfg(test)]
mod spaces;
#[cfg(test)]
mod words;
