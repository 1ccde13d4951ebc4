//! Constants, and where a part of a signal begins (IEEE 1364-2001, 4.2.1).

ghost use Rattle.std.specs.Prelude.{◌≡◌, IfSome};
ghost use Rattle.std.specs.Option.{is_some};
ghost use Rattle.design_model.specs.Mentions.{is_constant as is_constant_term};
ghost use Rattle.design_model.specs.View.{term_view};
ghost use Rattle.design_targets.specs.Written.{IsAloneInSome, IsConstantValue, has_place as index_has_place};

use crate::constant::is_constant;
use crate::smallest::{Smallest, Unnoted};
use design_model::Term;
use four_state::Four;
use term_replay::{Progress, evaluate};

/// The value of a term that names no signal and no memory, which is the same in each design. Other terms give none.
pub fn constant_value(term: &Term) -> Option<Four>
    requires { IsAloneInSome (term_view term.now) }
    ensures constant { is_some result ≡ is_constant_term (term_view term.now) }
    ensures value { IfSome result (λ value. IsConstantValue (term_view term.now) value) }
{
    if !is_constant(term) {
        return None;
    }
    let run = Progress {
        mode: None,
        first: None,
    };
    let mut notes = Unnoted;
    let evaluated = evaluate(&Smallest, term, run, &mut notes);
    Some(evaluated.value.value())
}

/// Whether a part of a signal by this index may have bits: the index is not constant, or no bit of it is x or z.
pub(crate) fn has_place(low: &Term) -> bool
    requires { IsAloneInSome (term_view low.now) }
    ensures { result ≡ index_has_place (term_view low.now) }
{
    match constant_value(low) {
        Some(index) => index.is_known(),
        None => true,
    }
}
