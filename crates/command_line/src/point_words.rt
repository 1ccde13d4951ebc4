use crate::PointAddresses;

/// The values of an `exclude` or a `restore` command.
#[derive(Clone, Copy)]
pub struct PointWords<'a> {
    /// The file that the database is written to, with the points that are out of the totals.
    pub output: &'a str,
    /// The addresses of points, at least one, in the order of the words.
    pub addresses: PointAddresses<'a>,
    /// The database.
    pub file: &'a str,
}
