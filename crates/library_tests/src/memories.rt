//! Tests of what a body is replayed on: `memory_rebuild`.

mod definitions;
mod plain;
mod random;
mod rebuilt;
