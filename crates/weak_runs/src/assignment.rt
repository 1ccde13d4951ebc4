//! An assignment of which nothing is known: its index may be any number, its value any, and it may not be made.

ghost use Rattle.std.specs.Prelude.{◌≡◌, ◌≤◌, [], None, if◌then◌else◌, length, true};
ghost use Rattle.design_model.specs.Design.{nowhere};
ghost use Rattle.design_model.specs.Shape.{is_body};
ghost use Rattle.design_model.specs.Tree as t;
ghost use Rattle.design_model.specs.Value.{head};
ghost use Rattle.design_model.specs.View.{target_view, term_view};
ghost use Rattle.value_store.specs.body_replay.Contract.{unread, weak_set};
ghost use Rattle.value_store.specs.body_replay.KnownBits.{extend_partly};
ghost use Rattle.value_store.specs.body_replay.Store.{known_value, weaken};
ghost use Rattle.open_tests.specs.assignments.Pieces.{AllTake, ArePieces, pieces_writes, widths};
ghost use Rattle.open_tests.specs.assignments.Takes.{set_queues};
ghost use Rattle.open_tests.specs.assignments.Widths.{HasWidths};
ghost use Rattle.weak_runs.specs.Makes.{IsOutside, Makes, at};
ghost use Rattle.weak_runs.specs.Unread.{unread_scene};

use crate::unread::{Unnoted, Unread};
use body_calls::Blocks;
use design_model::{Target, Term};
use known_state::Known;
use open_tests::{Piece, at_width, cut, locate, queue_pieces, total_width};
use term_replay::{Progress, Reads, evaluate};
use value_store::Queue;

/// Makes an assignment of which nothing is known: a blocking one to what is kept, a nonblocking one is queued. No part of an
/// earlier assignment is left in `pieces`, which is scratch room.
pub(crate) fn assign<S: Blocks>(
    store: &mut S,
    blocking: bool,
    target: &Target,
    value: &Term,
    pieces: &mut Queue<Piece>,
)
    requires lawful { is_body (S.scene store.old).design (t.set nowhere 0 blocking (target_view target.now) (term_view value.now)) ≡ true }
    requires widths { HasWidths (S.scene store.old).design }
    requires outside { IsOutside (at (S.under store.old) (S.scene store.old) (S.queued store.old) (S.around store.old) (S.rooms store.old)) }
    requires room { set_queues blocking (target_view target.now) ≤ (S.rooms store.old).queue }
    requires none { pieces.old.items ≡ [] }
    requires scratch { 128 ≤ pieces.old.room }
    ensures makes { Makes (if blocking then weak_set (S.scene store.old).design (target_view target.now) (term_view value.now) else []) (if blocking then [] else weak_set (S.scene store.old).design (target_view target.now) (term_view value.now)) (set_queues blocking (target_view target.now)) (at (S.under store.old) (S.scene store.old) (S.queued store.old) (S.around store.old) (S.rooms store.old)) (at (S.under store.new) (S.scene store.new) (S.queued store.new) (S.around store.new) (S.rooms store.new)) }
    ensures pieces { pieces.new ≡ pieces.old }
{
    let value = unread_value(store, target, value, pieces);
    make_weakly(store, pieces.as_slice(), &value, blocking);
    pieces.clear();
}

/// The value of an assignment where nothing is known, with the parts of its target.
fn unread_value<R: Reads>(
    reads: &R,
    target: &Target,
    value: &Term,
    pieces: &mut Queue<Piece>,
) -> Known
    requires lawful { is_body (R.scene reads.now).design (t.set nowhere 0 true (target_view target.now) (term_view value.now)) ≡ true }
    requires widths { HasWidths (R.scene reads.now).design }
    requires none { pieces.old.items ≡ [] }
    requires scratch { 128 ≤ pieces.old.room }
    ensures parts { ArePieces (unread_scene (R.scene reads.now)) None (target_view target.now) pieces.new.items }
    ensures room { pieces.new.room ≡ pieces.old.room }
    ensures bits { result.bits ≡ known_value (R.scene reads.now).design unread (term_view value.now) }
    ensures sign { result.signed ≡ (head (term_view value.now)).signed }
{
    let unread = Unread { reads };
    let run = Progress {
        mode: None,
        first: None,
    };
    let mut notes = Unnoted;
    let first = locate(&unread, target, run, pieces, &mut notes);
    evaluate(&unread, value, run.after(first), &mut notes).value
}

/// Gives the parts of an assignment its value, which may not be made.
fn make_weakly<S: Blocks>(store: &mut S, pieces: &[Piece], value: &Known, blocking: bool)
    requires places { AllTake (S.scene store.old).design pieces.now }
    requires width { widths pieces.now ≤ 128 }
    requires outside { IsOutside (at (S.under store.old) (S.scene store.old) (S.queued store.old) (S.around store.old) (S.rooms store.old)) }
    requires room { (if blocking then 0 else length pieces.now) ≤ (S.rooms store.old).queue }
    ensures { Makes (if blocking then weaken (pieces_writes (S.scene store.old).design pieces.now (extend_partly (widths pieces.now) value.now.signed value.now.bits)) else []) (if blocking then [] else weaken (pieces_writes (S.scene store.old).design pieces.now (extend_partly (widths pieces.now) value.now.signed value.now.bits))) (if blocking then 0 else length pieces.now) (at (S.under store.old) (S.scene store.old) (S.queued store.old) (S.around store.old) (S.rooms store.old)) (at (S.under store.new) (S.scene store.new) (S.queued store.new) (S.around store.new) (S.rooms store.new)) }
{
    let width = total_width(pieces);
    if width == 0 {
        return;
    }
    let bits = at_width(value, width);
    if blocking {
        write_weakly(store, pieces, &bits);
    } else {
        queue_pieces(store, pieces, &bits, false);
    }
}

/// Writes the parts of a blocking assignment, which may not be made.
fn write_weakly<S: Blocks>(store: &mut S, pieces: &[Piece], value: &Known)
    requires places { AllTake (S.scene store.old).design pieces.now }
    requires width { widths pieces.now ≡ length value.now.bits }
    requires outside { IsOutside (at (S.under store.old) (S.scene store.old) (S.queued store.old) (S.around store.old) (S.rooms store.old)) }
    ensures { Makes (weaken (pieces_writes (S.scene store.old).design pieces.now value.now.bits)) [] 0 (at (S.under store.old) (S.scene store.old) (S.queued store.old) (S.around store.old) (S.rooms store.old)) (at (S.under store.new) (S.scene store.new) (S.queued store.new) (S.around store.new) (S.rooms store.new)) }
{
    let mut left = value.width();
    for piece in pieces {
        left -= piece.width;
        let part = cut(value, left, piece.width);
        store.weak_write(&piece.to, &part);
    }
}
