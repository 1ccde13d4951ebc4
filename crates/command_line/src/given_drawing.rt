ghost use Rattle.std.specs.Prelude.{◌≡◌};
ghost use Rattle.std.specs.List.{after_first, before_first};
ghost use Rattle.command_line.specs.DrawingWords.{drawing_of, drawing_values, is_drawing};
ghost use Rattle.command_line.specs.MachineWords.{is_comma};

use crate::value_form::{cut_at_equals, is_module_name};

/// Two signals of a module, from whose case statements a state machine is drawn.
#[derive(Clone, Copy)]
pub struct GivenDrawing<'a> {
    /// The name of the module.
    pub module: &'a str,
    /// The signal that has the state.
    pub current: &'a str,
    /// The signal that is assigned the next state.
    pub next: &'a str,
}

impl<'a> GivenDrawing<'a> {
    /// The signals of a value: the module ends at the first `=`, and the first signal at the first `,` after it.
    pub(crate) fn new(value: &'a str) -> Self
        ensures { drawing_values result ≡ drawing_of value.now }
    {
        let (of_module, rest) = cut_at_equals(value);
        let (current, next) = cut_at_comma(rest);
        GivenDrawing {
            module: of_module,
            current,
            next,
        }
    }
}

/// Whether the value has the form MODULE=IN,OUT, all of them identifiers.
pub(crate) fn is_drawing(value: &str) -> bool
    ensures { result ≡ is_drawing value.now }
{
    let (of_module, rest) = cut_at_equals(value);
    let (current, next) = cut_at_comma(rest);
    is_module_name(of_module) && (is_module_name(current) && is_module_name(next))
}

/// What is before the first `,`, and what is after it.
fn cut_at_comma(value: &str) -> (&str, &str)
    ensures before { result.0.now ≡ before_first is_comma value.now }
    ensures after { result.1.now ≡ after_first is_comma value.now }
{
    match value.split_once(',') {
        Some(parts) => parts,
        None => (value, ""),
    }
}
