/// When in a step the environment moves its inputs.
#[derive(Clone, Copy)]
pub enum Habit {
    /// Any input moves at any point.
    Free,
    /// An input that is no event signal moves after the step's last edge of an event signal, once nothing more is to be
    /// evaluated or updated.
    Late,
}
