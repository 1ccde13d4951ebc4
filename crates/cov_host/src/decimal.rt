ghost use Rattle.std.specs.Prelude.{◌≡◌, ◌+◌, ◌*◌, ◌<◌, ◌≤◌, IfSome, IfNone};
ghost use Rattle.cov_host.specs.Decimal.{IsDecimal, decimal_value};

/// The number that a word of decimal digits writes, leading zeros allowed. None where another byte is among
/// them, where there is no digit, or where the number is greater than `greatest`.
pub fn read_decimal(word: &[u8], greatest: u64) -> Option<u64>
    ensures decimal { IfSome result (λ number. IsDecimal word.now) }
    ensures value { IfSome result (λ number. number ≡ decimal_value word.now) }
    ensures within { IfSome result (λ number. number ≤ greatest) }
    ensures none { IfNone result (IsDecimal word.now → greatest < decimal_value word.now) }
{
    let mut value = 0u64;
    for byte in word {
        let Some(digit) = char::from(*byte).to_digit(10) else {
            return None;
        };
        let Some(number) = with_digit(value, digit, greatest) else {
            return None;
        };
        value = number;
    }
    if word.is_empty() { None } else { Some(value) }
}

/// The number with one more digit at its end, where it is at most `greatest`.
fn with_digit(value: u64, digit: u32, greatest: u64) -> Option<u64>
    ensures value { IfSome result (λ number. number ≡ value * 10 + digit) }
    ensures within { IfSome result (λ number. number ≤ greatest) }
    ensures none { IfNone result (greatest < value * 10 + digit) }
{
    let number = value.checked_mul(10)?.checked_add(u64::from(digit))?;
    if number <= greatest {
        Some(number)
    } else {
        None
    }
}
