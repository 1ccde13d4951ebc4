//! A store in which the inputs have values.

ghost use Rattle.std.specs.Prelude.{◌≡◌, ◌<◌, IfOk, length};
ghost use Rattle.design_model.specs.Lawful.{IsLawfulDesign};
ghost use Rattle.design_model.specs.View.{design_view};
ghost use Rattle.bench.specs.Idle.{IsIdle};

use body_store::{Store, own_law, premises_law};
use cov_host::NoMemory;
use design_model::Design;
use four_state::Four;
use known_state::Known;
use std::alloc::Global;

/// The width of each input that gets a value.
const WIDTH: u8 = 16;

/// A store of which nothing is known.
pub(crate) fn new_store<'a>(alloc: Global, design: &'a Design) -> Result<Store<'a>, NoMemory>
    requires { IsLawfulDesign (design_view design.now) }
    ensures { IfOk result (λ store. IsIdle (design_view design.now) store) }
{
    premises_law();
    own_law();
    let store = Store::new(alloc, design)?;
    Ok(store)
}

/// The value of the input with this number.
fn value_of(signal: u32) -> Known
    ensures { length result.bits ≡ 16 }
{
    let number = u128::from(signal) * 40503 % 65536;
    Known::whole(Four::make(WIDTH, false, number, 0))
}

/// Keeps the values of the inputs of 16 bits, except of one in `unknown` of them, where that is not 0.
pub(crate) fn put_inputs(store: &mut Store, design: &Design, unknown: usize)
    requires { IsIdle (design_view design.now) store.old }
    ensures { IsIdle (design_view design.now) store.new }
{
    for number in 0..design.signals.len() {
        let is_known = unknown == 0 || number % unknown != 0;
        if is_known {
            put_input(store, design, number);
        }
    }
}

/// Keeps the value of the signal with this number, if it is an input of 16 bits.
fn put_input(store: &mut Store, design: &Design, number: usize)
    requires idle { IsIdle (design_view design.now) store.old }
    requires place { number < length design.now.signals }
    ensures { IsIdle (design_view design.now) store.new }
{
    let signal = &design.signals.as_slice()[number];
    if !signal.input || signal.width != WIDTH {
        return;
    }
    if let Ok(thing) = u32::try_from(number) {
        own_law();
        store.holding();
        store.set(thing, &value_of(thing), true);
    }
}

/// The sum of the numbers that are known of the signals that are no inputs, each times its place.
pub(crate) fn sum_of(store: &Store, design: &Design) -> u128
    requires { IsIdle (design_view design.now) store.now }
{
    let mut sum = 0u128;
    for number in 0..design.signals.len() {
        if !design.signals.as_slice()[number].input {
            let part = kept_number(store, design, number).wrapping_mul(number as u128);
            sum = sum.wrapping_add(part);
        }
    }
    sum
}

/// The number that is known of a signal.
fn kept_number(store: &Store, design: &Design, signal: usize) -> u128
    requires idle { IsIdle (design_view design.now) store.now }
    requires place { signal < length design.now.signals }
{
    match u32::try_from(signal) {
        Ok(signal) => store.kept_signal(signal).value().ones(),
        Err(_) => 0,
    }
}
