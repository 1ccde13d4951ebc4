//! Measures parts of the program that have no command of their own, and prints four numbers on a line, 0 where a part has
//! fewer. The first word says which part:
//!
//! - `bench operators OPERATOR WIDTH ROUNDS` times so many rounds of an operator of four-state vectors: the nanoseconds, and the
//!   sum of the answers.
//! - `bench ranking PATTERN TABLES POINTS` ranks tables that are hit by the pattern `half`, `own` or `rising`: the milliseconds,
//!   how many tables are used, and how many points are hit.
//! - `bench dump FILE` reads a dump: how many times and changes it says.
//! - `bench points FILE` lists the points of a design, makes their marks, and finds each point by its visit: the milliseconds
//!   after each of the three, and the sum of the points' numbers.
//! - `bench bodies FILE ROUNDS UNKNOWN` runs the body of a design's first process so many times: the sum of the outputs.
//! - `bench wakes FILE STEPS` takes so many steps in which the first signal of a design, a clock, rises, and with it the first
//!   signal that may become single, if there is one: the nanoseconds of the steps, how many members and clean blocks they find,
//!   the milliseconds in which the sets are made, and how many processes the design has.
//!
//! A design is that of the module `m` of the file. Nothing is proved of the program except that it is safe and ends.
//! `bench/README.md` has the scripts that call it, and the figures.
#![tactic(auto)]

mod bodies;
mod body_runs;
mod body_stores;
mod designs;
mod dump;
mod operators;
mod points;
mod ranking;
mod tables;
mod visits;
mod wakes;

use std::rt::{Clock, Files};
use std::time::Instant;
use std::{env, io};

/// What is printed of a measurement.
type Figures = [u128; 4];

fn main(rt: HostRuntime) -> io::Result<()> {
    let mut words = env::args(&rt)?;
    let (part, first) = (words.nth(1), words.next());
    let (second, third) = (number_of(words.next()), number_of(words.next()));
    match measure(&rt, text_of(&part), text_of(&first), second, third) {
        Some(figures) => print(&rt, figures),
        None => println!(rt; "nothing was measured"),
    }
}

/// Prints the figures on a line.
fn print(rt: &impl Print, figures: Figures) -> io::Result<()> {
    let [a, b, c, d] = figures;
    println!(rt; "{a} {b} {c} {d}")
}

/// A word, empty if there is no word.
fn text_of(word: &Option<String>) -> &str {
    match word {
        Some(word) => word.as_str(),
        None => "",
    }
}

/// The number that a word spells, 0 if it spells none.
fn number_of(word: Option<String>) -> u32 {
    match word {
        Some(word) => word.parse().unwrap_or(0),
        None => 0,
    }
}

/// Measures a part by the words after its name. None if there is no such part, or if it fails.
fn measure(
    rt: &(impl AllocGlobal + Clock + Files),
    part: &str,
    first: &str,
    second: u32,
    third: u32,
) -> Option<Figures> {
    match part {
        "operators" => operators::measure(rt, first, second, third),
        "ranking" => ranking::measure(rt, first, second, third),
        "dump" => dump::measure(rt, first),
        _ => designs::measure(rt, part, first, second, third),
    }
}

/// The nanoseconds since a time.
fn nanos_since(rt: &impl Clock, start: Instant) -> Option<u128> {
    Some(start.elapsed(rt).ok()?.as_nanos())
}

/// The milliseconds since a time.
fn millis_since(rt: &impl Clock, start: Instant) -> Option<u128> {
    Some(start.elapsed(rt).ok()?.as_millis())
}
