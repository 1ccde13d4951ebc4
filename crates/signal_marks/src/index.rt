//! The declared index of a bit (IEEE 1364-2001, clause 3.3.1).

ghost use Rattle.std.specs.Prelude.{◌≡◌, ◌<◌, ◌≤◌, ◌^◌};
ghost use Rattle.signal_marks.specs.Toggled.{index_at, HasIndex};

use design_model::Signal;

/// The declared index of the bit at a place, counted from the lowest bit; 0 where the signal has no range.
pub fn index_at(signal: &Signal, place: u8) -> u32
    requires within { HasIndex signal.now place }
    ensures { result ≡ index_at signal.now place }
{
    if !signal.ranged {
        return 0;
    }
    if signal.low <= signal.high {
        signal.low + place as u32
    } else {
        signal.low - place as u32
    }
}
