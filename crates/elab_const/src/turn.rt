ghost use Rattle.std.specs.Prelude.{◌≡◌, ◌∷◌, [], false, true, None, Some};
ghost use Rattle.std.specs.Option.{option_copied};
ghost use Rattle.four_state.specs.Vector.{truth as truth_of};
ghost use Rattle.verilog_tree.specs.View.{expr_view};
ghost use Rattle.elab_const.specs.Calls.{Gives};
ghost use Rattle.elab_const.specs.Loops as spec;
ghost use Rattle.elab_const.specs.Scope.{look_up, on_ok, with_turn};

use crate::constancy::is_constant;
use crate::evaluate::{alone, evaluate};
use crate::fault::Fault;
use crate::names::Names;
use crate::{ConstFault, ConstKind, Entry, Scope, Shape};
use cov_host::{Name, Place, Sequence};
use four_state::{Bit, Four, Truth};
use std::alloc::Global;
use verilog_tree::Expr;

/// The values of a loop variable in order, each an `integer`.
pub type Turns = Sequence<Four>;

/// The most turns that a loop may have.
const MOST_TURNS: u32 = 1024;

/// The value that an assignment of this expression gives an `integer`: evaluated at 32 bits or more, and cut.
pub(crate) fn integer_value(names: &Names, expr: &Expr) -> Result<Four, Fault>
    ensures { result ≡ spec.integer_answer (look_up names.now) (expr_view expr.now) }
{
    let integer = Shape {
        width: 32,
        signed: true,
    };
    let found = evaluate(names, expr, Some(integer))?;
    Ok(found.value.extend(32, true))
}

/// A loop over a variable, in a scope.
#[derive(Drop)]
pub(crate) struct Loop<'a> {
    pub(crate) scope: &'a Scope,
    pub(crate) place: Place,
    pub(crate) variable: &'a Name,
    pub(crate) test: &'a Expr,
    pub(crate) step: &'a Expr,
}

impl<'a> Loop<'a> {
    /// Whether the header names only constants and the variable, which is no name of something else.
    pub(crate) fn is_closed(&self, first: &Expr) -> bool
        ensures { result ≡ spec.is_over (look_up self.now.scope.now) self.now.variable.now (expr_view first.now) (expr_view self.now.test.now) (expr_view self.now.step.now) }
    {
        let entry = Entry::Turn(Four::fill(1, true, Bit::X));
        let names = Names::with(self.scope, self.variable, &entry);
        self.scope.get(self.variable.as_slice()).is_none()
            && is_constant(&Names::of(self.scope), first)
            && is_constant(&names, self.test)
            && is_constant(&names, self.step)
    }

    /// Whether a turn begins with these names, or the first fault of the test.
    fn begins(&self, names: &Names) -> Result<bool, Fault>
        ensures { result ≡ spec.begins (look_up names.now) self.now.place (expr_view self.now.test.now) }
    {
        let value = alone(names, self.test)?;
        match value.truth() {
            Truth::True => Ok(true),
            Truth::False => Ok(false),
            Truth::Strange => Err(Fault::at(ConstKind::LoopNotConstant, self.place)),
        }
    }

    /// What the variable has after a turn with this value, if that turn begins.
    fn next(&self, value: Four) -> Result<Option<Four>, Fault>
        ensures { result ≡ spec.next_answer (with_turn self.now.variable.now value (look_up self.now.scope.now)) self.now.place (expr_view self.now.test.now) (expr_view self.now.step.now) }
    {
        let entry = Entry::Turn(value);
        let names = Names::with(self.scope, self.variable, &entry);
        if !self.begins(&names)? {
            return Ok(None);
        }
        let next = integer_value(&names, self.step)?;
        Ok(Some(next))
    }

    /// The turns from this value of the variable on.
    pub(crate) fn turns_from(&self, alloc: Global, first: Four) -> Result<Turns, ConstFault>
        ensures { Gives result (spec.turns_from (look_up self.now.scope.now) self.now.place self.now.variable.now (expr_view self.now.test.now) (expr_view self.now.step.now) 1024 first) }
    {
        let mut turns = Turns::new(alloc);
        let mut value = first;
        for _ in 0..MOST_TURNS {
            match self.next(value) {
                Ok(Some(next)) => {
                    turns.push(value)?;
                    value = next;
                }
                Ok(None) => return Ok(turns),
                Err(fault) => return Err(ConstFault::of(fault)),
            }
        }
        match self.ends(value) {
            Ok(()) => Ok(turns),
            Err(fault) => Err(ConstFault::of(fault)),
        }
    }

    /// That no turn begins with this value, after the greatest number of turns.
    fn ends(&self, value: Four) -> Result<(), Fault>
        ensures { result ≡ on_ok (spec.begins (with_turn self.now.variable.now value (look_up self.now.scope.now)) self.now.place (expr_view self.now.test.now)) (spec.end_if self.now.place) }
    {
        let entry = Entry::Turn(value);
        let names = Names::with(self.scope, self.variable, &entry);
        if self.begins(&names)? {
            return Err(Fault::at(ConstKind::LoopTooLong, self.place));
        }
        Ok(())
    }
}
