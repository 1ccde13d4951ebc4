ghost use Rattle.std.specs.Prelude.{◌≡◌, ◌≤◌, ◌==◌, not, length, option_map};
ghost use Rattle.std.specs.List.{prefix_len};
ghost use Rattle.coverage_db.specs.Fields.{behind, split_first};

/// What is before the first byte of this value, and what is after it. None where there is no such byte.
pub fn split_first(bytes: &[u8], value: u8) -> Option<(&[u8], &[u8])>
    ensures { option_map (λ parts. (parts.0.now, parts.1.now)) result ≡ split_first value bytes.now }
{
    let (front, rest) = bytes.split_at(len_before(bytes, value));
    if rest.is_empty() {
        return None;
    }
    let (_, back) = rest.split_at(1);
    Some((front, back))
}

/// The number of bytes before the first of this value.
fn len_before(bytes: &[u8], value: u8) -> usize
    ensures length { result ≡ prefix_len (λ byte. not (byte == value)) bytes.now }
    ensures within { result ≤ length bytes.now }
{
    bytes.iter().take_while(|byte| **byte != value).count()
}

/// The rest after these first bytes. None where the bytes do not begin with it.
pub fn behind<'a>(bytes: &'a [u8], front: &[u8]) -> Option<&'a [u8]>
    ensures { option_map (λ back. back.now) result ≡ behind front.now bytes.now }
{
    bytes.strip_prefix(front)
}
