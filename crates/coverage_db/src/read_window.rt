ghost use Rattle.std.specs.Prelude.{◌≡◌, option_map};
ghost use Rattle.coverage_db.specs.Drafting.{window_count_of, window_of};
ghost use Rattle.coverage_db.specs.Fields.{Gives};
ghost use Rattle.coverage_db.specs.Text.{begins_window};

use crate::Window;
use crate::line_fault::LineFault;
use crate::number::{is_plain, read_number};
use crate::split::{behind, split_first};

/// The latest time.
const LATEST: u64 = i64::MAX as u64;

/// The digits of the number of windows.
#[tactic(auto, unfolding(crate::specs::Drafting::window_count_of))]
pub(crate) fn window_count_of(line: &[u8]) -> Option<&[u8]>
    ensures { option_map (λ digits. digits.now) result ≡ window_count_of line.now }
{
    let digits = behind(line, b"windows ")?;
    if is_plain(digits) { Some(digits) } else { None }
}

/// Whether the line begins with `window` and a space.
pub(crate) fn begins_window(line: &[u8]) -> bool
    ensures { result ≡ begins_window line.now }
{
    behind(line, b"window ").is_some()
}

/// The window of a line.
#[tactic(auto, unfolding(crate::specs::Drafting::window_of))]
pub(crate) fn read_window(line: &[u8]) -> Result<Window, LineFault>
    ensures { Gives (λ window. window) result (window_of line.now) }
{
    let Some(times) = behind(line, b"window ") else {
        return Err(LineFault::Misfit);
    };
    let Some((first, last)) = split_first(times, b' ') else {
        return Err(LineFault::Misfit);
    };
    let first = read_number(first, 0, LATEST)?;
    let last = read_number(last, first + 1, LATEST)?;
    Ok(Window { first, last })
}
