//! The answers of a step, in words.
//!
//! First come the names of what may move. Then comes for each process that can wake, after a semicolon, its number and
//! `not clean`, or its number, its trigger, `in` and the number of the round in which that became single, if it is not the
//! first one, and the names of what is early for it by both habits.

use crate::comparison::Comparison;
use crate::names::name_of;
use design_model::Design;
use early_sets::{Habit, Uncounted, Wakes};

/// Says the answers of a step.
pub(crate) fn say_answers(design: &Design, wakes: &mut Wakes, said: &mut Comparison) {
    say_moves(design, wakes, said);
    for process in 0..wakes.processes() {
        say_process(design, wakes, process, said);
    }
}

/// Says what may move.
pub(crate) fn say_moves(design: &Design, wakes: &Wakes, said: &mut Comparison) {
    said.say(b" moves");
    for thing in 0..wakes.things() {
        if wakes.moves().contains(&thing) {
            say_name(design, thing, said);
        }
    }
}

/// Says the answers for a process, if it can wake.
fn say_process(design: &Design, wakes: &mut Wakes, process: usize, said: &mut Comparison) {
    let number = u32::try_from(process).unwrap_or(u32::MAX);
    if number as usize >= wakes.processes() || !wakes.can_wake(number) {
        return;
    }
    said.say(b"; ");
    said.say_number(u128::from(number));
    match wakes.trigger(number) {
        Some(trigger) => {
            say_name(design, trigger as usize, said);
            say_round(wakes.round(number), said);
            say_early(design, wakes, Habit::Free, number, said);
            say_early(design, wakes, Habit::Late, number, said);
        }
        None => said.say(b" not clean"),
    }
}

/// Says the number of a round, unless it is the first one.
fn say_round(round: u32, said: &mut Comparison) {
    if round > 0 {
        said.say(b" in ");
        said.say_number(u128::from(round));
    }
}

/// Says what is early for a process, if it is clean.
fn say_early(
    design: &Design,
    wakes: &mut Wakes,
    habit: Habit,
    process: u32,
    said: &mut Comparison,
) {
    said.say(match habit {
        Habit::Free => b" free",
        Habit::Late => b" late",
    });
    if process as usize >= wakes.processes() || wakes.trigger(process).is_none() {
        return;
    }
    wakes.choose(habit, process, &mut Uncounted);
    say_chosen(design, wakes, said);
}

/// Says what is early for the block that was chosen last.
fn say_chosen(design: &Design, wakes: &Wakes, said: &mut Comparison) {
    for thing in 0..wakes.things() {
        let number = u32::try_from(thing).unwrap_or(u32::MAX);
        if (number as usize) < wakes.things() && wakes.early(number) {
            say_name(design, thing, said);
        }
    }
}

/// Says the name of a signal or memory.
fn say_name(design: &Design, thing: usize, said: &mut Comparison) {
    said.say(b" ");
    said.say(name_of(design, thing));
}
