ghost use Rattle.std.specs.Prelude.{◌≡◌};
ghost use Rattle.vcd_reader.specs.Header.{size_of};

use cov_host::read_decimal;

/// The greatest size of a variable, in bits.
const GREATEST: u64 = 999_999_999;

/// A size in bits, from 1 to the greatest.
pub(crate) fn read_size(word: &[u8]) -> Option<u32>
    ensures { result ≡ size_of word.now }
{
    let size = read_decimal(word, GREATEST)?;
    if size == 0 { None } else { Some(size as u32) }
}
