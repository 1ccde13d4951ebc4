//! Notes of runs, compared.

use body_trials::Mark;
use term_replay::Spot;

/// Whether a spot is hit or left open.
fn has_spot(marks: &[Mark], spot: Spot) -> bool {
    for mark in marks {
        if mark.spot == spot {
            return true;
        }
    }
    false
}

/// Whether each spot of other notes is hit or left open.
pub(crate) fn has_spots(marks: &[Mark], others: &[Mark]) -> bool {
    for other in others {
        if !has_spot(marks, other.spot) {
            return false;
        }
    }
    true
}

/// Whether each spot that is hit is in the other notes.
pub(crate) fn hits_within(marks: &[Mark], others: &[Mark]) -> bool {
    for mark in marks {
        if mark.doubt.is_none() && !has_spot(others, mark.spot) {
            return false;
        }
    }
    true
}

/// Whether a spot is left open.
pub(crate) fn has_doubt(marks: &[Mark]) -> bool {
    for mark in marks {
        if mark.doubt.is_some() {
            return true;
        }
    }
    false
}

/// Whether the notes have the same spots in the same order.
pub(crate) fn same_spots(marks: &[Mark], others: &[Mark]) -> bool {
    if marks.len() != others.len() {
        return false;
    }
    for (mark, other) in marks.iter().zip(others) {
        if mark.spot != other.spot {
            return false;
        }
    }
    true
}

/// Whether each spot is left open by this thing at this time.
pub(crate) fn are_by(marks: &[Mark], thing: u32, time: u64) -> bool {
    for mark in marks {
        match mark.doubt {
            Some(doubt) if doubt.thing == thing && doubt.time == time => {}
            _ => return false,
        }
    }
    true
}
