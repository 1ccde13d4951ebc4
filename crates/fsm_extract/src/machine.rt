//! The two signals of a state machine, and what their labels and assignments are.

ghost use Rattle.std.specs.Prelude.{◌≡◌, ◌≤◌, ◌<◌, length};
ghost use Rattle.design_model.specs.Design.{signal_at};
ghost use Rattle.design_model.specs.Lawful.{IsLawfulDesign};
ghost use Rattle.design_model.specs.View.{design_view, target_view, term_view};
ghost use Rattle.scene_laws.specs.term_replay.Stands.{IsInContext};
ghost use Rattle.fsm_extract.specs.Walked as spec;

use crate::numbers::{number_given, number_matched};
use crate::strange::Strange;
use design_model::{Design, Form, Target, Term};
use four_state::CaseKind;

/// The signal that has the state of a machine, and the signal that is assigned its next state.
#[derive(Drop)]
pub(crate) struct Machine<'a> {
    pub(crate) constants: Strange<'a>,
    pub(crate) current: u32,
    pub(crate) next: u32,
    /// The width of both.
    pub(crate) width: u8,
    ghost at_least: { 1 ≤ width },
    ghost at_most: { width ≤ 128 },
    ghost current_width: { width ≡ (signal_at (design_view constants.design.now) current).width },
    ghost next_width: { width ≡ (signal_at (design_view constants.design.now) next).width },
}

impl<'a> Machine<'a> {
    /// The machine of two signals of a design.
    pub(crate) fn new(design: &'a Design, current: u32, next: u32) -> Self
        requires lawful { IsLawfulDesign (design_view design.now) }
        requires current_listed { current < length design.now.signals }
        requires next_listed { next < length design.now.signals }
        requires one_width { (signal_at (design_view design.now) current).width ≡ (signal_at (design_view design.now) next).width }
        ensures design { result.constants.design.now ≡ design.now }
        ensures current { result.current ≡ current }
        ensures next { result.next ≡ next }
    {
        Machine {
            constants: Strange::new(design),
            current,
            next,
            width: width_of(design, current),
        }
    }

    /// Whether the labels of a case with this selector are values of the machine's state.
    pub(crate) fn is_over(&self, kind: CaseKind, on: &Term) -> bool
        ensures { result ≡ spec.is_over self.now.current kind (term_view on.now) }
    {
        match (kind, &*on.form) {
            (CaseKind::Exact, Form::Signal(signal)) => *signal == self.current,
            _ => false,
        }
    }

    /// The value of the machine's state that a label matches.
    pub(crate) fn label_value(&self, label: &Term) -> Option<u128>
        requires { IsInContext (design_view self.now.constants.design.now) (term_view label.now) }
        ensures { result ≡ spec.label_value (design_view self.now.constants.design.now) self.now.current (term_view label.now) }
    {
        let label = self.constants.constant(label)?;
        number_matched(self.width, &label)
    }

    /// What an assignment gives to the whole of the machine's next state, if it is a constant.
    pub(crate) fn assigned(&self, target: &Target, value: &Term) -> Option<u128>
        requires { IsInContext (design_view self.now.constants.design.now) (term_view value.now) }
        ensures { result ≡ spec.assigned (design_view self.now.constants.design.now) self.now.next (target_view target.now) (term_view value.now) }
    {
        match target {
            Target::Whole(signal) if *signal == self.next => {
                let value = self.constants.constant(value)?;
                number_given(self.width, &value)
            }
            _ => None,
        }
    }
}

/// The width of a signal.
pub(crate) fn width_of(design: &Design, signal: u32) -> u8
    requires { signal < length design.now.signals }
    ensures { result ≡ (signal_at (design_view design.now) signal).width }
{
    design.signals.as_slice()[signal as usize].width
}
