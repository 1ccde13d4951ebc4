use four_state::Four;

/// What a body says: a time that is greater than the one before, a change of a code to a value, or the end of a stretch or the
/// beginning of another, at this time if there was one.
#[derive(Clone, Copy)]
pub enum Entry {
    Time(u64),
    Value { code: u32, value: Four },
    Off,
    On(Option<u64>),
}
