//! What a run notes and leaves, as texts.

use crate::digits::add_digits;
use crate::things::thing_named;
use crate::{Mark, Outcome};
use block_runs::Doubt;
use cov_host::NoMemory;
use design_model::{Design, NodeCase};
use known_state::Known;
use std::alloc::Global;
use term_replay::Spot;

impl Outcome {
    /// The notes in order, each after a space: `l` and a line, `c`, a node, `:` and its case, `r` or `w` and the index of a
    /// word; for a doubt `?` and the name of the thing that is to blame, and where its time is not this one `@` and that time.
    pub fn notes(&self, alloc: Global, design: &Design, time: u64) -> Result<Vec<u8>, NoMemory> {
        let mut text = Vec::new(alloc);
        for mark in self.marks.as_slice() {
            text.push(b' ')?;
            add_mark(design, mark, time, &mut text)?;
        }
        Ok(text)
    }

    /// Whether these values are kept, in the form of [`crate::given_of`]. None for want of memory.
    pub fn keeps(&self, alloc: Global, design: &Design, values: &str) -> Result<bool, NoMemory> {
        for word in values.split_whitespace() {
            if !self.keeps_one(alloc, design, word)? {
                return Ok(false);
            }
        }
        Ok(true)
    }

    /// Whether the value that a word says is kept.
    fn keeps_one(&self, alloc: Global, design: &Design, word: &str) -> Result<bool, NoMemory> {
        let Some((name, digits)) = word.split_once('=') else {
            return Ok(false);
        };
        let Some(thing) = thing_named(design, name.as_bytes()) else {
            return Ok(false);
        };
        let Some(values) = self.values.get(thing as usize) else {
            return Ok(false);
        };
        let mut text = Vec::new(alloc);
        add_values(values.as_slice(), &mut text)?;
        Ok(text.as_slice() == digits.as_bytes())
    }
}

/// Adds the digits of values, with commas between.
fn add_values(values: &[Known], text: &mut Vec<u8>) -> Result<(), NoMemory> {
    for (place, value) in values.iter().enumerate() {
        if place > 0 {
            text.push(b',')?;
        }
        add_digits(value, text)?;
    }
    Ok(())
}

/// Adds a note.
fn add_mark(design: &Design, mark: &Mark, time: u64, text: &mut Vec<u8>) -> Result<(), NoMemory> {
    add_spot(mark.spot, text)?;
    match mark.doubt {
        Some(doubt) => add_doubt(design, doubt, time, text),
        None => Ok(()),
    }
}

/// Adds a doubt.
fn add_doubt(design: &Design, doubt: Doubt, time: u64, text: &mut Vec<u8>) -> Result<(), NoMemory> {
    text.push(b'?')?;
    text.extend_from_slice(name_of(design, doubt.thing))?;
    if doubt.time != time {
        text.push(b'@')?;
        text.extend_from_slice(itoa::Buffer::new().format(doubt.time).as_bytes())?;
    }
    Ok(())
}

/// The name of a signal or memory.
fn name_of(design: &Design, thing: u32) -> &[u8] {
    let number = thing as usize;
    match design.signals.get(number) {
        Some(signal) => signal.name.as_slice(),
        None => match design.memories.get(number - design.signals.len()) {
            Some(memory) => memory.name.as_slice(),
            None => "no thing".as_bytes(),
        },
    }
}

/// Adds a letter and a number.
fn add_number(letter: u8, number: u32, text: &mut Vec<u8>) -> Result<(), NoMemory> {
    text.push(letter)?;
    text.extend_from_slice(itoa::Buffer::new().format(number).as_bytes())?;
    Ok(())
}

/// Adds a spot.
fn add_spot(spot: Spot, text: &mut Vec<u8>) -> Result<(), NoMemory> {
    match spot {
        Spot::Line(line) => add_number(b'l', line, text),
        Spot::Node { node, case } => {
            add_number(b'c', node, text)?;
            text.push(b':')?;
            text.extend_from_slice(case_text(case).as_bytes())?;
            Ok(())
        }
        Spot::WordRead { index, .. } => add_number(b'r', index, text),
        Spot::WordWrite { index, .. } => add_number(b'w', index, text),
    }
}

/// The word for a case of a node.
fn case_text(case: NodeCase) -> &'static str {
    match case {
        NodeCase::ValueFalse => "0",
        NodeCase::ValueTrue => "1",
        NodeCase::LeftFalse => "0-",
        NodeCase::RightFalse => "-0",
        NodeCase::LeftTrue => "1-",
        NodeCase::RightTrue => "-1",
        NodeCase::BothFalse => "00",
        NodeCase::FalseTrue => "01",
        NodeCase::TrueFalse => "10",
        NodeCase::BothTrue => "11",
    }
}
