//! Stores in which the bodies of a design can run.

ghost use Rattle.std.specs.Prelude.{◌≡◌, ◌<◌, IfOk, IfSome, length, true};
ghost use Rattle.design_model.specs.Design.{is_memory, memory_at, signal_at};
ghost use Rattle.design_model.specs.Lawful.{IsLawfulDesign};
ghost use Rattle.design_model.specs.View.{design_view};
ghost use Rattle.body_trials.specs.Ready.{IsReady};

use crate::Given;
use body_rooms::store_rooms_law;
use body_store::{Store, premises_law};
use cov_host::NoMemory;
use design_model::Design;
use four_state::Four;
use known_state::Known;
use std::alloc::Global;

/// A store of which nothing is known.
pub(crate) fn store_of<'a>(alloc: Global, design: &'a Design) -> Result<Store<'a>, NoMemory>
    requires { IsLawfulDesign (design_view design.now) }
    ensures { IfOk result (λ store. IsReady design.now store) }
{
    premises_law();
    store_rooms_law();
    Store::new(alloc, design)
}

/// Keeps all that is given. The answer is whether the design has these signals, and its first memory these words, with so many
/// bits.
pub(crate) fn keep_all(store: &mut Store, design: &Design, given: &[Given]) -> bool
    requires { IsReady design.now store.old }
    ensures { IsReady design.now store.new }
{
    for one in given {
        if !keep(store, design, one) {
            return false;
        }
    }
    true
}

/// Keeps what is given of a signal or word.
fn keep(store: &mut Store, design: &Design, given: &Given) -> bool
    requires { IsReady design.now store.old }
    ensures { IsReady design.now store.new }
{
    match design.signals.get(given.thing as usize) {
        Some(signal) => {
            let fits = signal.width == given.value.width();
            if fits {
                keep_signal(store, design, given.thing, &given.value);
            }
            fits
        }
        None => keep_word(store, design, given),
    }
}

/// Keeps a value of a signal.
fn keep_signal(store: &mut Store, design: &Design, signal: u32, value: &Known)
    requires ready { IsReady design.now store.old }
    requires place { signal < length design.now.signals }
    requires width { length value.now.bits ≡ (signal_at (design_view design.now) signal).width }
    ensures { IsReady design.now store.new }
{
    store.set(signal, value, true);
}

/// Keeps what is given of a word of the first memory.
fn keep_word(store: &mut Store, design: &Design, given: &Given) -> bool
    requires { IsReady design.now store.old }
    ensures { IsReady design.now store.new }
{
    let Some(number) = first_memory(design) else {
        return false;
    };
    match design.memories.get(0) {
        Some(memory) if given.thing == number && memory.width == given.value.width() => {
            let index = u128::from(memory.first.min(memory.last)) + given.place as u128;
            set_word(store, design, number, index, &given.value);
            true
        }
        _ => false,
    }
}

/// The number of the first memory of a design.
fn first_memory(design: &Design) -> Option<u32>
    ensures memory { IfSome result (λ number. is_memory (design_view design.now) number ≡ true) }
    ensures first { IfSome result (λ number. number ≡ length design.now.signals) }
{
    if design.memories.is_empty() {
        None
    } else {
        u32::try_from(design.signals.len()).ok()
    }
}

/// Keeps a value of the word of a memory with this index.
fn set_word(store: &mut Store, design: &Design, memory: u32, index: u128, value: &Known)
    requires ready { IsReady design.now store.old }
    requires place { is_memory (design_view design.now) memory ≡ true }
    requires width { length value.now.bits ≡ (memory_at (design_view design.now) memory).width }
    ensures { IsReady design.now store.new }
{
    let index = Known::whole(Four::make(128, false, index, 0));
    store.set_word(memory, &index, value, true);
}
