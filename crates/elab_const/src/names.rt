ghost use Rattle.std.specs.Prelude.{◌≡◌, ◌∷◌, IfSome};
ghost use Rattle.std.specs.Option.{option_copied};
ghost use Rattle.elab_const.specs.Scope.{IsEntry, look_up};

use crate::{Entry, Scope};
use cov_host::Name;
use std::marker::Model;

/// The names that an expression may use: those of a scope, and a loop variable, which goes before them.
#[derive(Drop)]
pub(crate) struct Names<'a> {
    scope: &'a Scope,
    turn: Option<LoopTurn<'a>>,
}

/// A loop variable, and what it means in one turn.
#[derive(Drop)]
struct LoopTurn<'a> {
    variable: &'a Name,
    entry: &'a Entry,
}

impl<'a> Model for Names<'a> {
    ghost use Rattle.std.specs.Prelude.{ℕ, List, IfSome};
    ghost use Rattle.elab_const.specs.NamesView.{bindings_of};
    ghost use Rattle.elab_const.specs.Scope.{Entry, IsEntry};

    ghost Value = { List (List ℕ × Entry) };

    ghost view = { λ n. bindings_of n.turn n.scope.now };

    ghost invariant = { λ n. IfSome n.turn (λ turn. IsEntry turn.entry.now) };
}

impl<'a> Names<'a> {
    /// The names of a scope.
    pub(crate) fn of(scope: &'a Scope) -> Names<'a>
        ensures { result ≡ scope.now }
    {
        Names { scope, turn: None }
    }

    /// The names of a scope, where this one has the entry as its meaning.
    pub(crate) fn with(scope: &'a Scope, variable: &'a Name, entry: &'a Entry) -> Names<'a>
        requires { IsEntry entry.now }
        ensures { result ≡ (variable.now, entry.now) ∷ scope.now }
    {
        Names {
            scope,
            turn: Some(LoopTurn { variable, entry }),
        }
    }

    /// What a name means.
    pub(crate) fn get(&self, name: &Name) -> Option<&Entry>
        ensures value { option_copied result ≡ look_up self.now name.now }
        ensures within { IfSome result (λ entry. IsEntry entry.now) }
    {
        if let Some(turn) = &self.turn {
            if name.as_slice() == turn.variable.as_slice() {
                return Some(turn.entry);
            }
        }
        self.scope.get(name.as_slice())
    }
}
