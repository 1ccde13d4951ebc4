//! The evaluation of a term, form by form.

ghost use Rattle.std.specs.Prelude.{◌≡◌, ◌≤◌, IfSome, length, map, min, true};
ghost use Rattle.four_state.specs.Arithmetic.{natural};
ghost use Rattle.four_state.specs.declared.bit.Bit.TheVariants as bits;
ghost use Rattle.known_state.specs.Partly.{filled};
ghost use Rattle.design_model.specs.Shape.{are_alone, own_widths};
ghost use Rattle.design_model.specs.Tree as t;
ghost use Rattle.design_model.specs.View.{term_view, terms_of};
ghost use Rattle.body_replay.specs.Replay.{node_marks};
ghost use Rattle.term_replay.specs.Noted.{Adds, all_marks, in_this, marks_of, own_cases};
ghost use Rattle.term_replay.specs.Plain.{IsSmall, head_in, held as held_value};
ghost use Rattle.term_replay.specs.Walked.{IsSign, Walked};
ghost use Rattle.term_replay.specs.Stands.{IsHead, IsInContext, Scene, Stands, StandsAll, all_first_after, first_after, head_of, so_far};

use crate::after::{after_both, after_operand, after_sides, note_value};
use crate::cases::note_own;
use crate::fit::{fitted, noted, sign};
use crate::memory::{note_words, word};
use crate::plain::{empty, held, keep, settle, settle_vector};
use crate::repeated::{concat, followed_by};
use crate::select::{bit, part, range_of, slide};
use crate::{Access, Notes, Reads, TermHead};
use design_model::{Form, Term};
use four_state::{Binary, Four, Unary};
use known_state::Known;

/// How far a run is.
#[derive(Clone, Copy)]
pub struct Progress {
    /// What is to blame for the branch that is run, if it is one of an undecided test.
    pub mode: Option<u32>,
    /// The blame of the first read of the run that was not wholly sure.
    pub first: Option<u32>,
}

impl Progress {
    /// The run after more reads, of which this was then the first one that was not wholly sure.
    pub fn after(self, first: Option<u32>) -> Self
        ensures { result ≡ record { mode = self.mode; first = first } }
    {
        Progress {
            mode: self.mode,
            first,
        }
    }
}

/// The value of a term, and the blame of the first read of the run that was not wholly sure, after the term is
/// evaluated.
#[derive(Clone, Copy)]
pub struct Evaluated {
    /// The value.
    pub value: Known,
    /// The blame of the first read that was not wholly sure.
    pub first: Option<u32>,
}

/// The joined values of terms, if there are terms, and the blame of the first read of the run that was not wholly sure.
#[derive(Clone, Copy)]
struct Joined {
    value: Option<Known>,
    first: Option<u32>,
}

/// Evaluates a term of a body. The cases of the counted nodes and the words that are read are noted in order; in a
/// branch of an undecided test each is a doubt by that test.
#[cycle(terms)]
pub fn evaluate<R: Reads, N: Notes>(
    reads: &R,
    term: &Term,
    run: Progress,
    notes: &mut N,
) -> Evaluated
    requires { IsInContext (R.scene reads.now).design (term_view term.now) }
    ensures value { Stands (R.scene reads.now) run.first (term_view term.now) result.value }
    ensures first { result.first ≡ first_after (R.scene reads.now) run.first (term_view term.now) }
    ensures notes { Adds N.noted notes.old (in_this run.mode (marks_of (R.scene reads.now) run.first (term_view term.now))) notes.new }
{
    let mut after = run;
    let mut place = empty();
    let number = walk(reads, term, &mut after, notes, &mut place);
    Evaluated {
        value: held(number, term, &place),
        first: after.first,
    }
}

/// The same, where the value is the number that is returned, or else what is then in the place. No vector is copied from
/// one term to the next.
#[cycle(terms)]
fn walk<R: Reads, N: Notes>(
    reads: &R,
    term: &Term,
    run: &mut Progress,
    notes: &mut N,
    place: &mut Known,
) -> Option<u64>
    requires { IsInContext (R.scene reads.now).design (term_view term.now) }
    ensures { Walked N.noted (R.scene reads.now) term.now run.old notes.old result place.new run.new notes.new }
{
    match &*term.form {
        Form::Number(value) => number_term(value, term, run, notes, place),
        Form::Signal(signal) => signal_term(reads, *signal, term, run, notes, place),
        Form::Word { memory, index } => word_term(reads, *memory, index, term, run, notes, place),
        Form::Bit { of, index } => bit_term(reads, of, index, term, run, notes, place),
        Form::Part { of, high, low } => part_term(reads, of, high, low, term, run, notes, place),
        Form::Slide {
            of,
            base,
            width,
            up,
        } => slide_term(reads, of, base, width, *up, term, run, notes, place),
        Form::Unary(op, operand) => unary_term(reads, *op, operand, term, run, notes, place),
        Form::Binary(op, left, right) => {
            binary_term(reads, *op, left, right, term, run, notes, place)
        }
        Form::Choice { test, yes, no } => {
            choice_term(reads, test, yes, no, term, run, notes, place)
        }
        Form::Concat(parts) => concat_term(reads, parts, term, run, notes, place),
        Form::Repeat(count, parts) => repeat_term(reads, parts, count, term, run, notes, place),
        Form::Sign(_, operand) => sign_term(reads, operand, term, run, notes, place),
    }
}

/// How often a concatenation is repeated, by its evaluated count: at most as often as it fits, since one without bits
/// may be repeated more often.
fn whole_count(count: &Known) -> u8
    ensures { result ≡ min (natural (filled bits.Zero count.now.bits)) 128 }
{
    count.value().known_ones().min(128) as u8
}

/// Notes the cases of a term by its value, if it is a counted node, and gives the number of the value or puts it into the
/// place. This is then the first read of the run that was not wholly sure.
fn finish<N: Notes>(
    value: &Known,
    first: Option<u32>,
    term: &Term,
    run: &mut Progress,
    notes: &mut N,
    place: &mut Known,
) -> Option<u64>
    requires width { length value.now.bits ≡ term.now.width }
    requires sign { value.now.signed ≡ term.now.signed }
    ensures value { held_value (head_in term.now) result place.new ≡ value.now }
    ensures small { IfSome result (IsSmall (head_in term.now)) }
    ensures first { run.new.first ≡ first }
    ensures mode { run.new.mode ≡ run.old.mode }
    ensures notes { Adds N.noted notes.old (in_this run.old.mode (node_marks term.now.node (own_cases value.now.bits value.now.blame))) notes.new }
{
    note_own(term.node, value, run.mode, notes);
    run.first = first;
    keep(value, term, place)
}

/// A number.
fn number_term<N: Notes>(
    value: &Four,
    term: &Term,
    run: &Progress,
    notes: &mut N,
    place: &mut Known,
) -> Option<u64>
    requires form { term_view term.now ≡ t.number (head_of (head_in term.now)) value.now }
    requires head { IsHead (head_in term.now) }
    ensures { (v : Scene) → Walked N.noted v term.now run.now notes.old result place.new run.now notes.new }
{
    let number = settle_vector(value, term, place);
    note_value(number, term, run.mode, notes, place);
    number
}

/// A signal.
fn signal_term<R: Reads, N: Notes>(
    reads: &R,
    signal: u32,
    term: &Term,
    run: &mut Progress,
    notes: &mut N,
    place: &mut Known,
) -> Option<u64>
    requires form { term_view term.now ≡ t.signal (head_of (head_in term.now)) signal }
    requires context { IsInContext (R.scene reads.now).design (term_view term.now) }
    ensures { Walked N.noted (R.scene reads.now) term.now run.old notes.old result place.new run.new notes.new }
{
    let read = reads.signal(signal);
    run.first = noted(run.first, &read);
    let number = settle(&read, term, place);
    note_value(number, term, run.mode, notes, place);
    number
}

/// A word of a memory.
#[cycle(terms)]
#[inline(never)]
fn word_term<R: Reads, N: Notes>(
    reads: &R,
    memory: u32,
    index: &Term,
    term: &Term,
    run: &mut Progress,
    notes: &mut N,
    place: &mut Known,
) -> Option<u64>
    requires form { term_view term.now ≡ t.word (head_of (head_in term.now)) memory (term_view index.now) }
    requires context { IsInContext (R.scene reads.now).design (term_view term.now) }
    ensures { Walked N.noted (R.scene reads.now) term.now run.old notes.old result place.new run.new notes.new }
{
    let start = *run;
    let words = reads.words(memory);
    let index = evaluate(reads, index, start, notes);
    note_words(Access::Read, memory, words, &index.value, start.mode, notes);
    let read = word(reads, memory, &index.value, index.first);
    let first = noted(index.first, &read);
    let value = fitted(&read, TermHead::of(term));
    finish(&value, first, term, run, notes, place)
}

/// A bit by its index.
#[cycle(terms)]
#[inline(never)]
fn bit_term<R: Reads, N: Notes>(
    reads: &R,
    of: &Term,
    index: &Term,
    term: &Term,
    run: &mut Progress,
    notes: &mut N,
    place: &mut Known,
) -> Option<u64>
    requires form { term_view term.now ≡ t.bit (head_of (head_in term.now)) (term_view of.now) (term_view index.now) }
    requires context { IsInContext (R.scene reads.now).design (term_view term.now) }
    ensures { Walked N.noted (R.scene reads.now) term.now run.old notes.old result place.new run.new notes.new }
{
    let start = *run;
    let range = range_of(reads, of);
    let index = evaluate(reads, index, start, notes);
    let operand = evaluate(reads, of, start.after(index.first), notes);
    let value = bit(range, &index.value, &operand.value, TermHead::of(term));
    finish(&value, operand.first, term, run, notes, place)
}

/// A part by its two ends.
#[cycle(terms)]
#[inline(never)]
fn part_term<R: Reads, N: Notes>(
    reads: &R,
    of: &Term,
    high: &Term,
    low: &Term,
    term: &Term,
    run: &mut Progress,
    notes: &mut N,
    place: &mut Known,
) -> Option<u64>
    requires form { term_view term.now ≡ t.part (head_of (head_in term.now)) (term_view of.now) (term_view high.now) (term_view low.now) }
    requires context { IsInContext (R.scene reads.now).design (term_view term.now) }
    ensures { Walked N.noted (R.scene reads.now) term.now run.old notes.old result place.new run.new notes.new }
{
    let start = *run;
    let range = range_of(reads, of);
    let high = evaluate(reads, high, start, notes);
    let low = evaluate(reads, low, start.after(high.first), notes);
    let operand = evaluate(reads, of, start.after(low.first), notes);
    let head = TermHead::of(term);
    let value = part(range, &high.value, &low.value, &operand.value, head);
    finish(&value, operand.first, term, run, notes, place)
}

/// A part from an index up or down.
#[cycle(terms)]
#[inline(never)]
fn slide_term<R: Reads, N: Notes>(
    reads: &R,
    of: &Term,
    base: &Term,
    count: &Term,
    up: bool,
    term: &Term,
    run: &mut Progress,
    notes: &mut N,
    place: &mut Known,
) -> Option<u64>
    requires form { term_view term.now ≡ t.slide (head_of (head_in term.now)) (term_view of.now) (term_view base.now) (term_view count.now) up }
    requires context { IsInContext (R.scene reads.now).design (term_view term.now) }
    ensures { Walked N.noted (R.scene reads.now) term.now run.old notes.old result place.new run.new notes.new }
{
    let start = *run;
    let range = range_of(reads, of);
    let base = evaluate(reads, base, start, notes);
    let count = evaluate(reads, count, start.after(base.first), notes);
    let operand = evaluate(reads, of, start.after(count.first), notes);
    let head = TermHead::of(term);
    let value = slide(range, &base.value, &count.value, up, &operand.value, head);
    finish(&value, operand.first, term, run, notes, place)
}

/// An operator with one operand.
#[cycle(terms)]
fn unary_term<R: Reads, N: Notes>(
    reads: &R,
    op: Unary,
    operand: &Term,
    term: &Term,
    run: &mut Progress,
    notes: &mut N,
    place: &mut Known,
) -> Option<u64>
    requires form { term_view term.now ≡ t.unary (head_of (head_in term.now)) op (term_view operand.now) }
    requires context { IsInContext (R.scene reads.now).design (term_view term.now) }
    ensures { Walked N.noted (R.scene reads.now) term.now run.old notes.old result place.new run.new notes.new }
{
    let number = walk(reads, operand, run, notes, place);
    let number = after_operand(op, number, operand, term, place);
    note_value(number, term, run.mode, notes, place);
    number
}

/// An operator with two operands.
#[cycle(terms)]
fn binary_term<R: Reads, N: Notes>(
    reads: &R,
    op: Binary,
    left: &Term,
    right: &Term,
    term: &Term,
    run: &mut Progress,
    notes: &mut N,
    place: &mut Known,
) -> Option<u64>
    requires form { term_view term.now ≡ t.binary (head_of (head_in term.now)) op (term_view left.now) (term_view right.now) }
    requires context { IsInContext (R.scene reads.now).design (term_view term.now) }
    ensures { Walked N.noted (R.scene reads.now) term.now run.old notes.old result place.new run.new notes.new }
{
    let mut other = empty();
    let one = walk(reads, left, run, notes, &mut other);
    let two = walk(reads, right, run, notes, place);
    after_both(
        op, one, two, left, right, &other, term, run.mode, notes, place,
    )
}

/// A choice. Both sides are evaluated.
#[cycle(terms)]
fn choice_term<R: Reads, N: Notes>(
    reads: &R,
    test: &Term,
    yes: &Term,
    no: &Term,
    term: &Term,
    run: &mut Progress,
    notes: &mut N,
    place: &mut Known,
) -> Option<u64>
    requires form { term_view term.now ≡ t.choice (head_of (head_in term.now)) (term_view test.now) (term_view yes.now) (term_view no.now) }
    requires context { IsInContext (R.scene reads.now).design (term_view term.now) }
    ensures { Walked N.noted (R.scene reads.now) term.now run.old notes.old result place.new run.new notes.new }
{
    let mut tested = empty();
    let mut other = empty();
    let by = walk(reads, test, run, notes, &mut tested);
    let one = walk(reads, yes, run, notes, &mut other);
    let two = walk(reads, no, run, notes, place);
    let number = after_sides(by, one, two, test, &tested, &other, term, place);
    note_value(number, term, run.mode, notes, place);
    number
}

/// Terms side by side.
#[cycle(terms)]
#[inline(never)]
fn concat_term<R: Reads, N: Notes>(
    reads: &R,
    parts: &[Term],
    term: &Term,
    run: &mut Progress,
    notes: &mut N,
    place: &mut Known,
) -> Option<u64>
    requires form { term_view term.now ≡ t.concat (head_of (head_in term.now)) (terms_of (map term_view parts.now)) }
    requires context { IsInContext (R.scene reads.now).design (term_view term.now) }
    ensures { Walked N.noted (R.scene reads.now) term.now run.old notes.old result place.new run.new notes.new }
{
    let all = join_all(reads, parts, *run, notes);
    let value = concat(all.value, 1, TermHead::of(term));
    finish(&value, all.first, term, run, notes, place)
}

/// Terms side by side, repeated.
#[cycle(terms)]
#[inline(never)]
fn repeat_term<R: Reads, N: Notes>(
    reads: &R,
    parts: &[Term],
    count: &Term,
    term: &Term,
    run: &mut Progress,
    notes: &mut N,
    place: &mut Known,
) -> Option<u64>
    requires form { term_view term.now ≡ t.repeat (head_of (head_in term.now)) (term_view count.now) (terms_of (map term_view parts.now)) }
    requires context { IsInContext (R.scene reads.now).design (term_view term.now) }
    ensures { Walked N.noted (R.scene reads.now) term.now run.old notes.old result place.new run.new notes.new }
{
    let start = *run;
    let count = evaluate(reads, count, start, notes);
    let all = join_all(reads, parts, start.after(count.first), notes);
    let times = whole_count(&count.value);
    let value = concat(all.value, times, TermHead::of(term));
    finish(&value, all.first, term, run, notes, place)
}

/// `$signed` or `$unsigned` of an operand.
#[cycle(terms)]
#[inline(never)]
fn sign_term<R: Reads, N: Notes>(
    reads: &R,
    operand: &Term,
    term: &Term,
    run: &mut Progress,
    notes: &mut N,
    place: &mut Known,
) -> Option<u64>
    requires form { IsSign term.now operand.now }
    requires context { IsInContext (R.scene reads.now).design (term_view term.now) }
    ensures { Walked N.noted (R.scene reads.now) term.now run.old notes.old result place.new run.new notes.new }
{
    let operand = evaluate(reads, operand, *run, notes);
    let value = sign(&operand.value, TermHead::of(term));
    finish(&value, operand.first, term, run, notes, place)
}

/// Evaluates terms in order, and joins their values, the first one highest.
#[cycle(terms)]
#[inline(never)]
fn join_all<R: Reads, N: Notes>(reads: &R, parts: &[Term], run: Progress, notes: &mut N) -> Joined
    requires { are_alone (R.scene reads.now).design (terms_of (map term_view parts.now)) ≡ true }
    ensures value { own_widths (R.scene reads.now).design (terms_of (map term_view parts.now)) ≤ 128 → StandsAll (R.scene reads.now) run.first (terms_of (map term_view parts.now)) (so_far result.value) }
    ensures first { result.first ≡ all_first_after (R.scene reads.now) run.first (terms_of (map term_view parts.now)) }
    ensures notes { Adds N.noted notes.old (in_this run.mode (all_marks (R.scene reads.now) run.first (terms_of (map term_view parts.now)))) notes.new }
{
    let mut all = Joined {
        value: None,
        first: run.first,
    };
    for part in parts {
        let part = evaluate(reads, part, run.after(all.first), notes);
        all = Joined {
            value: Some(followed_by(all.value, &part.value)),
            first: part.first,
        };
    }
    all
}
