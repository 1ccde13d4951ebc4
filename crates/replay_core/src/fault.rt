use four_state::Four;
use known_state::Known;

/// Why a replay does not go on.
#[derive(Clone, Copy)]
pub enum ReplayFault {
    /// This signal has a code, and a stretch of the dump gives it no value before its second time. No signal before it lacks one.
    NoBaseline {
        signal: u32,
    },
    /// No run of the design shows the dump up to this time.
    Contradiction {
        /// The signal of which the dump says something else than what its processes make of it.
        signal: u32,
        /// The time, in units of the dump.
        time: u64,
        /// What the dump says.
        dumped: Four,
        /// What the processes make of it. It differs in a bit that is sure.
        computed: Known,
    },
}

/// How far a replay has come.
#[derive(Clone, Copy)]
pub(crate) enum Phase {
    /// No step of the stretch was closed, and nothing is known.
    Paused,
    /// The first step was closed.
    Started,
    /// A step was refused for this.
    Refused(ReplayFault),
}
