use crate::DatabaseFiles;

/// The values of a `rank` command.
#[derive(Clone, Copy)]
pub struct RankWords<'a> {
    /// The first database.
    pub first: &'a str,
    /// The other databases, in the order of the words.
    pub others: DatabaseFiles<'a>,
}
