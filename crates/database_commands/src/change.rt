/// What a command does with points.
#[derive(Clone, Copy)]
pub enum Change {
    /// It takes them out of the totals of a report.
    Exclude,
    /// It takes them back into the totals.
    Restore,
}
