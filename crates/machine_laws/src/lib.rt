//! Theorems that join the states and arcs marked in a step with what the replay reports of them; there is no code.
//!
//! Where the toggles of what may move are marked, and then the machines (`specs/Followed.antt`), each verdict is the one
//! before with what the step reports of its point ([`follow_law`]). The states of a signal that does not move need not be marked once they were reported
//! at a step before, and each step reports all of them
//! ([`told_law`]). [`seen_law`] is of the masks of toggles, and [`arcs_law`] of the values of an arc.
#![tactic(auto)]

ghost use Rattle.machine_laws.specs.Followed.{ArcsLaw, FollowLaw, SeenLaw, ToldLaw};

/// Once the toggles and the machines are marked, each verdict follows what the step reports of its point.
pub fn follow_law()
    ensures { FollowLaw }
{}

/// After a step each state was reported.
pub fn told_law()
    ensures { ToldLaw }
{}

/// Masks of toggles that are marked already stay so where states and arcs are marked.
pub fn seen_law()
    ensures { SeenLaw }
{}

/// The two values of an arc differ.
pub fn arcs_law()
    ensures { ArcsLaw }
{}
