ghost use Rattle.std.specs.Prelude.{◌≡◌, ◌≤◌, length, map};
ghost use Rattle.value_store.specs.Signals.{shape_of, unknown_of};
ghost use Rattle.value_store.specs.Slots.{IsSlot, forgotten, rewound, shape_in};

use body_replay::Known;
use design_model::{Range, Signal};

/// What is held of a signal.
#[derive(Clone, Copy)]
pub(crate) struct Slot {
    /// Its declared range.
    pub(crate) range: Range,
    pub(crate) width: u8,
    pub(crate) signed: bool,
    /// What is kept.
    pub(crate) kept: Known,
    /// What bodies read in its place in the epoch in which it was put here.
    pub(crate) shown: Known,
    /// When it was put here.
    pub(crate) epoch: u64,
}

impl Slot {
    /// A signal of which nothing is known, and that is to blame for itself.
    pub(crate) fn new(signal: &Signal, number: u32) -> Self
        requires at_least { 1 ≤ signal.now.width }
        requires at_most { signal.now.width ≤ 128 }
        ensures shape { shape_in result ≡ shape_of signal.now }
        ensures kept { result.kept ≡ unknown_of (shape_of signal.now) number }
        ensures slot { IsSlot 0 result }
    {
        let unknown = Known::unknown(signal.width, signal.signed, number);
        Slot {
            range: Range {
                high: signal.high,
                low: signal.low,
            },
            width: signal.width,
            signed: signal.signed,
            kept: unknown,
            shown: unknown,
            epoch: 0,
        }
    }
}

/// Nothing was put into the slots since epoch 0.
pub(crate) fn rewind(slots: &mut [Slot])
    ensures { slots.new ≡ map rewound slots.old }
{
    for slot in slots.iter_mut() {
        slot.epoch = 0;
    }
}

/// Nothing is known of any signal, and each is to blame for itself.
pub(crate) fn forget(slots: &mut [Slot])
    requires { length slots.old ≤ 65536 }
    ensures { slots.new ≡ forgotten 0 slots.old }
{
    for number in 0..slots.len() {
        let slot = &mut slots[number];
        slot.kept = Known::unknown(slot.kept.width(), slot.kept.is_signed(), number as u32);
    }
}
