//! Tests of commands whose calls on the host fail, one after the other, and of files that are cut short.

mod cut;
mod failing;
mod runs;
mod texts;
