ghost use Rattle.std.specs.Prelude.{◌≡◌, ◌≤◌, IfOk};
ghost use Rattle.std.specs.Char.{is_ascii_digit};
ghost use Rattle.std.specs.List.{list_all};
ghost use Rattle.coverage_db.specs.Fields.{Gives, is_plain, number_of};

use crate::line_fault::LineFault;
use cov_host::read_decimal;

/// The number that a field writes, from least to greatest.
pub(crate) fn read_number(word: &[u8], least: u64, greatest: u64) -> Result<u64, LineFault>
    ensures number { Gives (λ number. number) result (number_of least greatest word.now) }
    ensures within { IfOk result (λ number. number ≤ greatest) }
{
    if !is_plain(word) {
        return Err(LineFault::Misfit);
    }
    match read_decimal(word, greatest) {
        Some(number) if number >= least => Ok(number),
        _ => Err(LineFault::Misfit),
    }
}

/// Whether the word is of decimal digits without leading zeros.
pub(crate) fn is_plain(word: &[u8]) -> bool
    ensures { result ≡ is_plain word.now }
{
    match word {
        [] => false,
        [first, others @ ..] => all_digits(word) && (*first != b'0' || others.is_empty()),
    }
}

/// Whether all bytes are decimal digits.
pub(crate) fn all_digits(word: &[u8]) -> bool
    ensures { result ≡ list_all is_ascii_digit word.now }
{
    word.iter().all(|byte| byte.is_ascii_digit())
}
