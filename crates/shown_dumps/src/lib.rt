//! What the dump of a text says of a design, and theorems of it; there is no code.
//!
//! The dump of a text and a binding of signals to codes give a dump of a design, which may lack inputs (`specs/Shown.antt`), where
//! the times rise ([`dump_law`]). A text says stretches: where the dump goes off one ends, and where it goes on another begins.
//! The entries that are read so far fix the stretches that have ended, and the beginning of the one that is on ([`split_law`]). Up to the
//! next time they fix what the dump says, whatever comes later: its times ([`first_time_law`], [`next_time_law`], [`rest_law`]), where
//! nothing is shown between stretches ([`end_law`]), and the values of codes and signals ([`value_law`], [`first_value_law`],
//! [`bits_law`]). A run that shows the whole dump shows what was read of it ([`front_law`]).
//! The values that were given last are those of each dump that goes on ([`given_law`]), and the first values of a stretch stay
//! ([`first_stays_law`]).
#![tactic(auto)]

ghost use Rattle.std.specs.Prelude.{◌≡◌, ℕ, List};
ghost use Rattle.vcd_reader.specs.Dump.{steps_of, times_of};
ghost use Rattle.vcd_reader.specs.declared.entry.Entry.{Entry};
ghost use Rattle.shown_dumps.specs.Example.{IsExample};
ghost use Rattle.shown_dumps.specs.Laws.{BitsLaw, DumpLaw, EndLaw, FirstTimeLaw, FirstValueLaw, FrontLaw, NextTimeLaw, OrderLaw, PastEndLaw, RestLaw, ShortEndLaw, SplitLaw, SplitOffLaw, ValueLaw};
ghost use Rattle.shown_dumps.specs.Ongoing.{FirstStaysLaw, GivenLaw};
ghost use Rattle.shown_dumps.specs.Said.{times_in};

/// The times of the steps of a stretch are those that are said of it. Within each stretch they rise, and none of a later stretch is
/// below them.
pub fn times_law()
    ensures times { (entries : List Entry) → times_of (steps_of entries) ≡ times_in entries }
    ensures order { OrderLaw }
{}

/// More entries make the stretch longer that is on, and more stretches.
pub fn split_law()
    ensures on { SplitLaw }
    ensures off { SplitOffLaw }
{}

/// Between the last time that is said of the stretch that is on and the next one the value of a code is that of its last change.
pub fn value_law()
    ensures { ValueLaw }
{}

/// Before the second time of a stretch it is the first value.
pub fn first_value_law()
    ensures { FirstValueLaw }
{}

/// A dump with rising times is a dump of the design, which may lack inputs.
pub fn dump_law()
    ensures { DumpLaw }
{}

/// The only time of the stretch that is on is its first, and shown, and nothing is shown between the end of the stretches before
/// and this time.
pub fn first_time_law()
    ensures { FirstTimeLaw }
{}

/// The last of several times before the next is listed and of the window, and there is no listed time between it and the one before.
pub fn next_time_law()
    ensures { NextTimeLaw }
{}

/// The times between the last one and the next are of the window, and not listed.
pub fn rest_law()
    ensures { RestLaw }
{}

/// Where a stretch ends that has two times, its last time is the end of what the stretches show that have ended; one with fewer times
/// shows nothing. At the end of a body nothing is shown after it.
pub fn end_law()
    ensures two { EndLaw }
    ensures short { ShortEndLaw }
    ensures past { PastEndLaw }
{}

/// The bits of a bound signal are those of the last change of its code.
pub fn bits_law()
    ensures { BitsLaw }
{}

/// A run that shows a dump shows, up to a time before the next one, also the dump that ends there.
pub fn front_law()
    ensures { FrontLaw }
{}

/// The values that were given last are those of each dump that goes on, up to the next time.
pub fn given_law()
    ensures { GivenLaw }
{}

/// After the second time of a stretch its first values stay.
pub fn first_stays_law()
    ensures { FirstStaysLaw }
{}

/// The stretches of an example are those that are expected.
pub fn example_of_stretches()
    ensures { IsExample }
{}
