use four_state::Four;

/// What a piece of the header came to.
#[derive(Clone, Copy)]
pub enum Fed {
    /// The piece is used up.
    More,
    /// The header ends after `used` bytes of the piece.
    Done { used: usize },
}

/// What the body says next.
#[derive(Clone, Copy)]
pub enum Item {
    /// A time that is greater than the one before, in the dump's units.
    Time(u64),
    /// A change of a code to a value of the code's size. Changes before the first time of a stretch belong to it, and of several
    /// changes of one code between two times the last holds.
    Value { code: u32, value: Four },
    /// The dump goes off: a stretch of it ends. What is recorded until it goes on again is not said.
    Off,
    /// The dump goes on: a stretch begins, whose first time is this one, or, where there was none yet, the next that is said.
    On(Option<u64>),
    /// The piece is used up.
    More,
    /// The dump is at its end.
    End,
}

/// What the body says next, and how many bytes of the piece were used for it.
#[derive(Clone, Copy)]
pub struct Step {
    /// What the body says.
    pub item: Item,
    /// The number of bytes of the piece that were used.
    pub used: usize,
}

/// What the body says next, of which the body keeps the value.
#[derive(Clone, Copy)]
pub enum Saying {
    /// A time that is greater than the one before, in the dump's units.
    Time(u64),
    /// A change of a code to the value that the body keeps.
    Change(u32),
    /// The dump goes off: a stretch of it ends. What is recorded until it goes on again is not said.
    Off,
    /// The dump goes on: a stretch begins, whose first time is this one, or, where there was none yet, the next that is said.
    On(Option<u64>),
    /// The piece is used up.
    More,
    /// The dump is at its end.
    End,
}

/// What the body says next, and how many bytes of the piece were used for it.
#[derive(Clone, Copy)]
pub struct Heard {
    /// What the body says.
    pub saying: Saying,
    /// The number of bytes of the piece that were used.
    pub used: usize,
}
