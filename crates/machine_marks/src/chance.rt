//! How sure it is that a signal has a value.

ghost use Rattle.std.specs.Prelude.{◌≡◌, ◌&&◌, false, length, not};
ghost use Rattle.mark_laws.specs.replay_model.Step.{are_surely, may_be};
ghost use Rattle.machine_marks.specs.Marked.{is_possible, is_sure};

use four_state::Four;
use known_state::Known;

/// How sure something is.
#[derive(Clone, Copy)]
pub(crate) enum Chance {
    /// It surely is not so.
    Never,
    /// It may be so.
    Open,
    /// It surely is so.
    Sure,
}

impl Chance {
    /// That a signal of which this is known has a value.
    pub(crate) fn of(known: &Known, value: &Four) -> Self
        requires { length known.now.bits ≡ length value.now.bits }
        ensures sure { is_sure result ≡ are_surely known.now.bits value.now.bits }
        ensures possible { is_possible result ≡ may_be known.now.bits value.now.bits }
    {
        if known.differs(value) {
            Chance::Never
        } else if known.is_whole() {
            Chance::Sure
        } else {
            Chance::Open
        }
    }

    /// That it comes to be so, where it may have been so before.
    pub(crate) fn coming(self, before: Self) -> Self
        ensures sure { is_sure result ≡ false }
        ensures possible { is_possible result ≡ (is_possible self && not (is_sure before)) }
    {
        match (self, before) {
            (Chance::Never, _) | (_, Chance::Sure) => Chance::Never,
            (Chance::Open | Chance::Sure, Chance::Never | Chance::Open) => Chance::Open,
        }
    }

    /// That both are so.
    pub(crate) fn and(self, other: Self) -> Self
        ensures sure { is_sure result ≡ (is_sure self && is_sure other) }
        ensures possible { is_possible result ≡ (is_possible self && is_possible other) }
    {
        match (self, other) {
            (Chance::Never, _) | (_, Chance::Never) => Chance::Never,
            (Chance::Sure, Chance::Sure) => Chance::Sure,
            (Chance::Open | Chance::Sure, Chance::Open | Chance::Sure) => Chance::Open,
        }
    }
}
