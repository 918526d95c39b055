//! Tests of a pool of memory, and of the writer of the ring over pools with holes and several blocks that are taken at
//! once. They stand here, above the writer, since a crate with tests is proved once with them and once without.
#![tactic(auto)]

#[cfg(test)]
mod pool;
#[cfg(test)]
mod pools;
