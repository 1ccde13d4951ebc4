//! The writes of an assignment, part by part, the highest part first.

ghost use Rattle.std.specs.Prelude.{◌≡◌, ◌+◌, ◌≤◌, ◌++◌, ℕ, Bool, if◌then◌else◌, drop, length, take, true, None};
ghost use Rattle.known_state.specs.Partly.{is_whole};
ghost use Rattle.scene_laws.specs.term_replay.Noted.{Adds, in_this};
ghost use Rattle.scene_laws.specs.term_replay.Stands.{Scene};
ghost use Rattle.scene_laws.specs.body_calls.Lvalues.{Like, Takes, if_certain};
ghost use Rattle.scene_laws.specs.body_calls.Rooms.{Leaves, takes_in};
ghost use Rattle.assignments.specs.Pieces.{AllTake, all_assigned, blame_option, lvalue_marks, pieces_marks, pieces_take, made, pieces_writes, queued_by, widths};
ghost use Rattle.assignments.specs.Takes.{HasRoom};
ghost use Rattle.value_store.specs.body_replay.KnownBits.{extend_partly};

use crate::Piece;
use cov_host::Place;
use known_state::Known;
use scene_laws::{Access, Bodies, Lvalue, Notes, Reads, TermHead, fitted, note_words};

/// Notes the words that the parts of an assignment write, in order.
pub fn note_written<R: Reads, N: Notes>(
    reads: &R,
    pieces: &[Piece],
    mode: Option<u32>,
    notes: &mut N,
)
    requires { AllTake (R.scene reads.now).design pieces.now }
    ensures { Adds N.noted notes.old (in_this mode (pieces_marks (R.scene reads.now).design pieces.now)) notes.new }
{
    for piece in pieces {
        note_piece(reads, piece, mode, notes);
    }
}

/// Notes the word that a part writes, or those that it may write.
fn note_piece<R: Reads, N: Notes>(reads: &R, piece: &Piece, mode: Option<u32>, notes: &mut N)
    requires { Takes (R.scene reads.now).design piece.now.to piece.now.width }
    ensures { Adds N.noted notes.old (in_this mode (lvalue_marks (R.scene reads.now).design piece.now.to)) notes.new }
{
    match &piece.to {
        Lvalue::Signal(_) | Lvalue::Part { .. } => {}
        Lvalue::Word { memory, index } => {
            let words = reads.words(*memory);
            note_words(Access::Write, *memory, words, index, mode, notes);
        }
    }
}

/// So many bits of a value, from this one up.
pub fn cut(value: &Known, low: u8, width: u8) -> Known
    requires some { 1 ≤ width }
    requires inside { low + width ≤ length value.now.bits }
    ensures bits { result.bits ≡ drop low (take (low + width) value.now.bits) }
    ensures whole { is_whole value.now ≡ true → is_whole result ≡ true }
{
    if width == value.width() {
        return *value;
    }
    value.select(i64::from(low), width)
}

/// Writes the parts of a blocking assignment at once. The thing is to blame for the value if that is not wholly sure.
pub fn write_pieces<B: Bodies>(store: &mut B, pieces: &[Piece], value: &Known, blame: Option<u32>)
    requires places { AllTake (B.scene store.old).design pieces.now }
    requires width { widths pieces.now ≡ length value.now.bits }
    requires sure { blame ≡ None → is_whole value.now ≡ true }
    requires room { pieces_take (takes_in (B.around store.old) (B.rooms store.old)) pieces.now ≤ (B.rooms store.old).log }
    ensures scene { (v : Scene) (sure : Bool) (thing : ℕ) → blame ≡ blame_option sure thing → Like v (B.scene store.old) → Like (all_assigned pieces.now value.now.bits sure thing v) (B.scene store.new) }
    ensures design { (B.scene store.new).design ≡ (B.scene store.old).design }
    ensures queued { B.queued store.new ≡ B.queued store.old }
    ensures around { B.around store.new ≡ B.around store.old }
    ensures under { B.under store.new ≡ B.under store.old }
    ensures rooms { Leaves (pieces_take (takes_in (B.around store.old) (B.rooms store.old)) pieces.now) 0 (B.rooms store.old) (B.rooms store.new) }
{
    let mut left = value.width();
    for piece in pieces {
        left -= piece.width;
        let part = cut(value, left, piece.width);
        store.write(&piece.to, &part, blame);
    }
}

/// Queues the parts of a nonblocking assignment.
pub fn queue_pieces<B: Bodies>(store: &mut B, pieces: &[Piece], value: &Known, certain: bool)
    requires places { AllTake (B.scene store.old).design pieces.now }
    requires width { widths pieces.now ≡ length value.now.bits }
    requires room { length pieces.now ≤ (B.rooms store.old).queue }
    ensures scene { B.scene store.new ≡ B.scene store.old }
    ensures queued { B.queued store.new ≡ B.queued store.old ++ if_certain certain (pieces_writes (B.scene store.old).design pieces.now value.now.bits) }
    ensures around { B.around store.new ≡ B.around store.old }
    ensures under { B.under store.new ≡ B.under store.old }
    ensures rooms { Leaves 0 (length pieces.now) (B.rooms store.old) (B.rooms store.new) }
{
    let mut left = value.width();
    for piece in pieces {
        left -= piece.width;
        let part = cut(value, left, piece.width);
        store.queue(&piece.to, &part, certain);
    }
}

/// How many bits the parts have together.
pub fn total_width(pieces: &[Piece]) -> u8
    requires { widths pieces.now ≤ 128 }
    ensures { result ≡ widths pieces.now }
{
    let mut total = 0;
    for piece in pieces {
        total += piece.width;
    }
    total
}

/// What is to blame for a value, if it is not wholly sure.
fn unsure_blame(value: &Known) -> Option<u32>
    ensures { result ≡ blame_option (is_whole value.now) value.now.blame }
{
    if value.is_whole() {
        None
    } else {
        Some(value.blame())
    }
}

/// The value of an assignment at the width of its target, by its own sign (IEEE 1364-2001, clause 4.5).
pub fn at_width(value: &Known, width: u8) -> Known
    requires at_least { 1 ≤ width }
    requires at_most { width ≤ 128 }
    ensures { result.bits ≡ extend_partly width value.now.signed value.now.bits }
{
    let nowhere = Place {
        source: 0,
        line: 0,
        column: 0,
    };
    let head = TermHead {
        place: nowhere,
        width,
        signed: value.is_signed(),
        node: None,
    };
    fitted(value, head)
}

/// Gives the parts of an assignment its value: at once, or where it is nonblocking by the queue.
pub fn make<B: Bodies>(
    store: &mut B,
    pieces: &[Piece],
    value: &Known,
    blocking: bool,
    certain: bool,
)
    requires places { AllTake (B.scene store.old).design pieces.now }
    requires width { widths pieces.now ≤ 128 }
    requires room { HasRoom (if blocking then pieces_take (takes_in (B.around store.old) (B.rooms store.old)) pieces.now else 0) (if blocking then 0 else length pieces.now) (B.rooms store.old) }
    ensures scene { (v : Scene) (sure : Bool) (thing : ℕ) → blame_option (is_whole value.now) value.now.blame ≡ blame_option sure thing → Like v (B.scene store.old) → Like (made blocking pieces.now (extend_partly (widths pieces.now) value.now.signed value.now.bits) sure thing v) (B.scene store.new) }
    ensures design { (B.scene store.new).design ≡ (B.scene store.old).design }
    ensures queued { B.queued store.new ≡ queued_by blocking certain (B.scene store.old).design pieces.now (extend_partly (widths pieces.now) value.now.signed value.now.bits) (B.queued store.old) }
    ensures around { B.around store.new ≡ B.around store.old }
    ensures under { B.under store.new ≡ B.under store.old }
    ensures rooms { Leaves (if blocking then pieces_take (takes_in (B.around store.old) (B.rooms store.old)) pieces.now else 0) (if blocking then 0 else length pieces.now) (B.rooms store.old) (B.rooms store.new) }
{
    let width = total_width(pieces);
    if width == 0 {
        return;
    }
    let bits = at_width(value, width);
    if blocking {
        write_pieces(store, pieces, &bits, unsure_blame(value));
    } else {
        queue_pieces(store, pieces, &bits, certain);
    }
}
