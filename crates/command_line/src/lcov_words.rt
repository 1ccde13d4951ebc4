/// The values of an `lcov` command.
#[derive(Clone, Copy)]
pub struct LcovWords<'a> {
    /// The file that the tracefile is written to.
    pub output: &'a str,
    /// The database.
    pub file: &'a str,
}
