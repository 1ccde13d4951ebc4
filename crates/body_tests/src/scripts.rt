//! Tests of the bodies of the example cases, with the answers of these, and beside them runs that the definitions decide by
//! hand. Each is a script: a source, what is known before a run, its way, what it then notes, and what it leaves. A comment
//! names the example case and the time of the step.

mod cases;
mod clocks;
mod combinational;
mod conditions;
mod marked;
mod memories;
mod nets;
mod parts;
mod registers;
mod script;
mod verdicts;
