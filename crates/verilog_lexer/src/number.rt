ghost use Rattle.std.specs.Prelude.{◌≡◌, ◌==◌, ◌+◌, ◌*◌, ◌-◌, None, Some, nat_le, if◌then◌else◌};
ghost use Rattle.verilog_lexer.specs.Number.{number, with_digit, number_within};

/// The number that decimal digits write, underscores passed over, where it is at most `greatest`
/// (IEEE 1364-2001 clause 2.5.1).
#[tactic(auto, using(crate::proofs::Numbers::numbers))]
pub(crate) fn number_within(greatest: u128, digits: &[u8]) -> Option<u128>
    ensures { result ≡ number_within greatest digits.now }
{
    let mut value = 0u128;
    for byte in digits {
        let Some(longer) = with_digit(greatest, value, *byte) else {
            return None;
        };
        value = longer;
    }
    if value <= greatest { Some(value) } else { None }
}

/// The number with one digit more, where it is at most `greatest`. An underscore adds nothing.
fn with_digit(greatest: u128, value: u128, byte: u8) -> Option<u128>
    ensures { result ≡ (if nat_le (with_digit value byte) greatest then Some (with_digit value byte) else None) }
{
    if byte == b'_' {
        return if value <= greatest { Some(value) } else { None };
    }
    let number = value
        .checked_mul(10)?
        .checked_add(u128::from(byte.saturating_sub(b'0')))?;
    if number <= greatest {
        Some(number)
    } else {
        None
    }
}
