//! Numbers as values of a signal.

ghost use Rattle.std.specs.Prelude.{◌≡◌, ◌<◌, ◌^◌, length};
ghost use Rattle.design_model.specs.Design.{signal_at};
ghost use Rattle.design_model.specs.Lawful.{IsLawfulDesign};
ghost use Rattle.design_model.specs.View.{design_view};
ghost use Rattle.drawn_machines.specs.Drawing.{number_value};

use design_model::Design;
use four_state::Four;

/// The value of a signal that is this number, with the width and the sign of the signal.
pub(crate) fn number_value(design: &Design, signal: u32, number: u128) -> Four
    requires lawful { IsLawfulDesign (design_view design.now) }
    requires listed { signal < length design.now.signals }
    requires inside { number < 2 ^ (signal_at (design_view design.now) signal).width }
    ensures { result ≡ number_value (design_view design.now) signal number }
{
    let signal = &design.signals.as_slice()[signal as usize];
    Four::make(signal.width, signal.signed, number, 0)
}
