//! Which words of memories the run of a block can change: those that it notes to be written, or to be written perhaps. There is no
//! code: the contract of [`unnoted_law`] states this of the definition of a run (`outcome` of `body_replay`).
#![tactic(auto)]

ghost use Rattle.noted_words.specs.Unnoted.{UnnotedLaw};

/// Of a word that no note says to be written a run of a process of a lawful design leaves what was kept, and its queued writes
/// leave it, in each way in which it notes what it writes.
pub fn unnoted_law()
    ensures { UnnotedLaw }
{}
