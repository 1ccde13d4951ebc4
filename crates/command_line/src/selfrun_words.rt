/// The values of a `selfrun` command.
#[derive(Clone, Copy)]
pub struct SelfrunWords {
    /// The number from which the inputs follow.
    pub number: u32,
    /// How many steps there are, from 1 to a million.
    pub steps: u32,
}
