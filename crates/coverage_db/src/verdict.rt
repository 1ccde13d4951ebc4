use cov_host::Name;

/// How a point came out.
#[derive(Drop)]
pub enum DbVerdict {
    /// It was hit.
    Hit,
    /// It was not hit.
    Missed,
    /// The dump leaves it open, from this time on.
    Undetermined {
        /// The first time at which something is in doubt, below 2 ^ 63.
        time: u64,
        /// The path of the signal or memory that is in doubt there.
        path: Name,
    },
}
