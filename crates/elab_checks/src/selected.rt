//! What selects select from, and whether their bits are there.

ghost use Rattle.std.specs.Prelude.{◌≡◌, ◌≤◌, nat_le, not, Some, true, false, MatchOption};
ghost use Rattle.elab_checks.specs.Selected as inside;
ghost use Rattle.elab_checks.specs.Selected.{selected_view};
ghost use Rattle.elab_scope.specs.Tally.{after_faults};
ghost use Rattle.elab_scope.specs.View.{name_view};
ghost use Rattle.std.specs.Option.{option_copied};
ghost use Rattle.flat_design.specs.Expressions as spec;
ghost use Rattle.elab_const.specs.Meaning as meaning;
ghost use Rattle.flat_design.specs.Fault.{fault_at, fault_if, none};
ghost use Rattle.flat_design.specs.declared.fault.ElabKind.TheVariants.{WrongUse};
ghost use Rattle.flat_design.specs.Identifiers.{base_name as spec_base_name};
ghost use Rattle.flat_design.specs.Scope.{binding_of, is_memory_name, look_up};
ghost use Rattle.flat_design.specs.declared.entry.Entry.TheVariants.{Memory};
ghost use Rattle.verilog_tree.specs.View.{expr_view};

use crate::sizes::check_size;
use cov_host::Place;
use design_model::Range;
use elab_scope::{FoundFault, NameAt, Scope, Tally, base_name};
use flat_design::{ElabKind, Entry, MemoryEntry};
use four_state::Index;
use verilog_tree::{Expr, ExprForm};

/// What a select selects from.
#[derive(Clone, Copy, Drop)]
pub(crate) enum Selected<'a> {
    /// Bits with a range, by their name.
    Bits(Range, NameAt<'a>),
    /// What has no bits.
    NoBits(NameAt<'a>),
    /// What has a fault.
    Unknown,
}

impl<'a> Selected<'a> {
    /// By the range.
    fn of(range: Option<Range>, name: NameAt<'a>) -> Selected<'a>
        ensures { selected_view result ≡ spec.selected_of range (name_view name.entry) }
    {
        match range {
            Some(range) => Selected::Bits(range, name),
            None => Selected::NoBits(name),
        }
    }

    /// Reports an index on what has no bits, and says whether it has bits.
    pub(crate) fn check(self, tally: &mut Tally<'a>) -> bool
        ensures met { tally.new ≡ after_faults tally.old (spec.select_faults (selected_view self.entry)) }
        ensures sound { result ≡ none (spec.select_faults (selected_view self.entry)) }
    {
        if let Selected::NoBits(name) = self {
            tally.fault(FoundFault::at(ElabKind::WrongUse, name));
            return false;
        }
        true
    }

    /// Reports an index that is out of the range, and says whether it is in the range.
    pub(crate) fn check_bit(self, index: Index, tally: &mut Tally<'a>) -> bool
        ensures met { tally.new ≡ after_faults tally.old (inside.bit_faults (selected_view self.entry) index) }
        ensures sound { result ≡ none (inside.bit_faults (selected_view self.entry) index) }
    {
        match self {
            Selected::Bits(range, name) => check_use(has_index(range, index), name, tally),
            _ => true,
        }
    }

    /// Reports an indexed part that is not inside the range, and says whether it is.
    pub(crate) fn check_slide(self, base: Index, width: u8, up: bool, tally: &mut Tally<'a>) -> bool
        requires { 1 ≤ width }
        ensures met { tally.new ≡ after_faults tally.old (inside.slide_faults (selected_view self.entry) up width base) }
        ensures sound { result ≡ none (inside.slide_faults (selected_view self.entry) up width base) }
    {
        match self {
            Selected::Bits(range, name) => {
                check_use(has_slide(range, up, width, base), name, tally)
            }
            _ => true,
        }
    }

    /// Reports a part with this bracket of less than one bit, of more than 128, or not inside of the range. Whether it
    /// is not any of these.
    pub(crate) fn check_part(
        self,
        bracket: Place,
        high: u32,
        low: u32,
        tally: &mut Tally<'a>,
    ) -> bool
        ensures met { tally.new ≡ after_faults tally.old (spec.part_range_faults (selected_view self.entry) bracket high low) }
        ensures sound { result ≡ none (spec.part_range_faults (selected_view self.entry) bracket high low) }
    {
        let Selected::Bits(range, name) = self else {
            return true;
        };
        if !check_size(part_width(range, high, low), bracket, tally) {
            return false;
        }
        check_use(has_part(range, high, low), name, tally)
    }
}

/// Reports a wrong use of a name, unless the use is right.
fn check_use<'a>(right: bool, name: NameAt<'a>, tally: &mut Tally<'a>) -> bool
    ensures met { tally.new ≡ after_faults tally.old (fault_if (not right) (fault_at WrongUse (name_view name.entry))) }
    ensures sound { result ≡ right }
{
    if !right {
        tally.fault(FoundFault::at(ElabKind::WrongUse, name));
    }
    right
}

/// The number of bits from the index high to low, 0 against the direction of the range.
fn part_width(range: Range, high: u32, low: u32) -> u128
    ensures { result ≡ meaning.part_width (nat_le range.low range.high) high low }
{
    let (high, low) = (u128::from(high), u128::from(low));
    if range.low <= range.high {
        (high + 1).saturating_sub(low)
    } else {
        (low + 1).saturating_sub(high)
    }
}

/// The memory that an expression is the name of.
pub(crate) fn memory_named(scope: &Scope, of: &Expr) -> Option<MemoryEntry>
    ensures { MatchOption result (is_memory_name (binding_of scope.now) (expr_view of.now) ≡ false) (λ m. (is_memory_name (binding_of scope.now) (expr_view of.now) ≡ true) × (look_up (binding_of scope.now) (spec_base_name (expr_view of.now)).name ≡ Some (Memory m))) }
{
    match &*of.form {
        ExprForm::Name(name) => match scope.get(name.as_slice()) {
            Some(Entry::Memory(memory)) => Some(*memory),
            _ => None,
        },
        _ => None,
    }
}

/// Whether a number is between the bounds of a range.
fn contains(range: Range, number: u128) -> bool
    ensures { result ≡ inside.contains range number }
{
    u128::from(range.high.min(range.low)) <= number
        && number <= u128::from(range.high.max(range.low))
}

/// Whether an index is of the range. One with an x or z is not checked.
pub(crate) fn has_index(range: Range, index: Index) -> bool
    ensures { result ≡ inside.has_index range index }
{
    match index {
        Index::Strange => true,
        Index::Below => false,
        Index::At(number) => contains(range, number),
    }
}

/// Whether all indexes from this one on, up or down, are of the range.
pub(crate) fn has_slide(range: Range, up: bool, width: u8, base: Index) -> bool
    requires { 1 ≤ width }
    ensures { result ≡ inside.has_slide range up width base }
{
    let number = match base {
        Index::Strange => return true,
        Index::Below => return false,
        Index::At(number) => number,
    };
    let more = u128::from(width - 1);
    if !contains(range, number) {
        false
    } else if up {
        number + more <= u128::from(range.high.max(range.low))
    } else {
        u128::from(range.high.min(range.low)) + more <= number
    }
}

/// Whether both bounds of a part are of the range.
pub(crate) fn has_part(range: Range, high: u32, low: u32) -> bool
    ensures { result ≡ inside.has_part range high low }
{
    contains(range, u128::from(high)) && contains(range, u128::from(low))
}

/// What a select selects from: a name, or a word of a memory.
pub(crate) fn selection<'a>(scope: &Scope, of: &'a Expr) -> Selected<'a>
    ensures { selected_view result ≡ spec.selected (binding_of scope.now) (expr_view of.now) }
{
    match &*of.form {
        ExprForm::Name(name) => selection_of_name(scope.get(name.as_slice()), base_name(of)),
        ExprForm::Bit { of: word, .. } => match &*word.form {
            ExprForm::Name(name) => selection_of_word(scope.get(name.as_slice()), base_name(word)),
            _ => Selected::NoBits(base_name(of)),
        },
        _ => Selected::NoBits(base_name(of)),
    }
}

/// What a select on a name selects from.
fn selection_of_name<'a>(entry: Option<&Entry>, name: NameAt<'a>) -> Selected<'a>
    ensures { selected_view result ≡ spec.selected_name (option_copied entry.entry) (name_view name.entry) }
{
    match entry {
        Some(Entry::Signal(signal)) => Selected::of(signal.range, name),
        None | Some(Entry::Faulty) => Selected::Unknown,
        Some(_) => Selected::NoBits(name),
    }
}

/// What a select on a memory word selects from.
fn selection_of_word<'a>(entry: Option<&Entry>, name: NameAt<'a>) -> Selected<'a>
    ensures { selected_view result ≡ spec.selected_word (option_copied entry.entry) (name_view name.entry) }
{
    match entry {
        Some(Entry::Memory(memory)) => Selected::of(memory.range, name),
        None | Some(Entry::Faulty) => Selected::Unknown,
        Some(_) => Selected::NoBits(name),
    }
}
