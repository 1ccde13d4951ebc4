use crate::DatabaseFiles;

/// The values of a `merge` command.
#[derive(Clone, Copy)]
pub struct MergeWords<'a> {
    /// The file that the merge is written to.
    pub output: &'a str,
    /// The first database.
    pub first: &'a str,
    /// The other databases, at least one, in the order of the words.
    pub others: DatabaseFiles<'a>,
}
