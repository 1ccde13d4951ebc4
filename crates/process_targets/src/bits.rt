//! Bits of signals, as masks.

ghost use Rattle.std.specs.Prelude.{◌≡◌, ◌<◌, ◌||◌, ◌==◌, OnOk, ℕ, length, true};
ghost use Rattle.design_model.specs.event_machine.Cell.{Cell};
ghost use Rattle.four_state.specs.Masks.{is_set};
ghost use Rattle.design_model.specs.Design.{cell};
ghost use Rattle.process_targets.specs.Placed.{ArePlaced, IsPlaceOf};
ghost use Rattle.process_targets.specs.Targets.{IsOnce, has_bit, names, row_has};

use cov_host::NoMemory;

/// Some bits of a signal.
#[derive(Clone, Copy)]
pub struct Bits {
    /// The signal.
    pub signal: u32,
    /// The places of the bits, from the lowest bit of the signal up.
    pub mask: u128,
}

/// Adds bits to a row in which no signal is twice. `places` has for each signal of the row its place there; what it has
/// for the others is of no use. It takes constant time.
pub(crate) fn add_bits(
    row: &mut Vec<Bits>,
    places: &mut [usize],
    bits: Bits,
) -> Result<(), NoMemory>
    requires placed { ArePlaced row.old.items places.old }
    requires signal { bits.signal < length places.old }
    ensures size { length places.new ≡ length places.old }
    ensures placed { OnOk result (ArePlaced row.new.items places.new) }
    ensures has { OnOk result ((c : Cell) → row_has row.new.items c ≡ (row_has row.old.items c || has_bit bits c)) }
    ensures named { OnOk result ((s : ℕ) → names row.new.items s ≡ (names row.old.items s || bits.signal == s)) }
{
    match place_of(row.as_slice(), places, bits.signal) {
        Some(place) => {
            row[place].mask |= bits.mask;
            Ok(())
        }
        None => {
            places[bits.signal as usize] = row.len();
            row.push(bits)?;
            Ok(())
        }
    }
}

/// The place of a signal in a row.
fn place_of(row: &[Bits], places: &[usize], signal: u32) -> Option<usize>
    requires placed { ArePlaced row.now places.now }
    requires signal { signal < length places.now }
    ensures { IsPlaceOf row.now signal result }
{
    let place = places[signal as usize];
    match row.get(place) {
        Some(bits) if bits.signal == signal => Some(place),
        _ => None,
    }
}

/// Sets the place of each signal of a row, in which none is twice.
pub fn set_places(row: &[Bits], places: &mut [usize])
    requires once { IsOnce row.now }
    requires within { (s : ℕ) → names row.now s ≡ true → s < length places.old }
    ensures size { length places.new ≡ length places.old }
    ensures placed { ArePlaced row.now places.new }
{
    for place in 0..row.len() {
        places[row[place].signal as usize] = place;
    }
}

/// The places of the bits that a row has of a signal. It takes constant time.
pub fn mask_of(row: &[Bits], places: &[usize], signal: u32) -> u128
    requires placed { ArePlaced row.now places.now }
    requires signal { signal < length places.now }
    ensures { (i : ℕ) → is_set result i ≡ row_has row.now (cell signal i) }
{
    match place_of(row, places, signal) {
        Some(place) => row[place].mask,
        None => 0,
    }
}
