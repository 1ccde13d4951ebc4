//! Of what is early, what a block needs to be shown.

ghost use Rattle.std.specs.Prelude.{◌≡◌, ◌<◌, ◌≤◌, ◌+◌, ◌++◌, ℕ, IsTrue, length, true};
ghost use Rattle.std.specs.List.{All};
ghost use Rattle.event_machine.specs.Cell.{Values as CellValues};
ghost use Rattle.design_model.specs.Mentions.{body_assigns};
ghost use Rattle.design_model.specs.View.{process_view};
ghost use Rattle.four_state.specs.declared.bit.Bit.{Bit};
ghost use Rattle.process_names.specs.Names.{body_names};
ghost use Rattle.early_sets.specs.WakeState.{state_of};
ghost use Rattle.run_views.specs.body_calls.Own.{is_in};
ghost use Rattle.run_views.specs.body_store.Bodies.{rooms_of};
ghost use Rattle.run_views.specs.design_model.Design.{body};
ghost use Rattle.run_views.specs.design_model.View.{design_view};
ghost use Rattle.run_views.specs.Meets.{Meets};
ghost use Rattle.step_values.specs.Dumped.{AreDumped};
ghost use Rattle.step_values.specs.Loose.{has_code};
ghost use Rattle.step_values.specs.replay_model.Step.{Closing, Working, clean_store, plain_store};
ghost use Rattle.entry_values.specs.Entering.{IsReady, IsShownSince, MeetsFor, ShowStart, Shows};
ghost use Rattle.entry_values.specs.Entry.{IsEntryOf};

use crate::entry::{show_early, show_entry, show_trigger};
use body_names::{Names, name_all};
use code_values::CodeValues;
use design_model::{Design, Process};
use early_sets::Wakes;
use run_views::Store;

/// So many early signals and memories take less time to show than the walk of a body takes.
const FEW: usize = 16;

/// Until [`run_views::show_kept`], the body of this process reads what a clean block is entered with by this trigger. What is
/// early are the early things of `sets`, the trigger not among them; where they are many, only those of them are shown that the
/// body mentions or assigns. `written` is what it assigns, and `codes` has the code of each signal. It takes no memory, and time
/// for what is early or, where that is less, for the text of the body.
pub fn enter_block(
    store: &mut Store,
    design: &Design,
    process: &Process,
    trigger: u32,
    sets: &Wakes,
    written: &[u32],
    codes: &[Option<u32>],
    values: &CodeValues,
)
    requires same { design_view store.old.design.now ≡ design_view design.now }
    requires few { length design.now.signals + length design.now.memories ≤ 4294967295 }
    requires things { All (λ x. x < length design.now.signals + length design.now.memories) (state_of sets.now).early }
    requires place { trigger < length design.now.signals }
    requires coded { has_code codes.now trigger ≡ true }
    requires written { (x : ℕ) → is_in written.now x ≡ body_assigns x (body (process_view process.now)) }
    requires before { (old : CellValues Bit) × AreDumped (design_view design.now) codes.now values.now.closed old }
    requires after { (new : CellValues Bit) × AreDumped (design_view design.now) codes.now values.now.last new }
    ensures design { store.new.design ≡ store.old.design }
    ensures updates { store.new.updates ≡ store.old.updates }
    ensures rooms { rooms_of store.new ≡ rooms_of store.old }
    ensures meets { (st : Closing) (p : ℕ) (w : Working) → IsEntryOf st p trigger (state_of sets.now).early codes.now values.now
        → Meets st.design (plain_store w.kept) store.old → MeetsFor (body (process_view process.now)) st.design (clean_store st p trigger w) store.new }
{
    let early = sets.early_things();
    if early.len() > FEW && has_numbers_of(sets, design) {
        show_named(store, design, process, sets, written, codes, values);
        show_trigger(store, trigger, codes, values);
    } else {
        show_entry(store, design, trigger, early, codes, values);
    }
}

/// Whether each signal and memory of the design has a number in the sets.
fn has_numbers_of(sets: &Wakes, design: &Design) -> bool
    requires { length design.now.signals + length design.now.memories ≤ 4294967295 }
    ensures { IsTrue result → length design.now.signals + length design.now.memories ≤ (state_of sets.now).tables.things }
{
    design.signals.as_slice().len() + design.memories.as_slice().len() <= sets.things()
}

/// Bodies read what may be read of those of the early signals and memories that the body of this process mentions or assigns.
fn show_named(
    store: &mut Store,
    design: &Design,
    process: &Process,
    sets: &Wakes,
    written: &[u32],
    codes: &[Option<u32>],
    values: &CodeValues,
)
    requires { IsReady (design_view design.now) (state_of sets.now) codes.now values.now store.old }
    ensures { Shows (state_of sets.now).early codes.now values.now (written.now ++ body_names (body (process_view process.now))) store.old store.new }
{
    let mut entering = Entering {
        store,
        design,
        sets,
        codes,
        values,
    };
    name_all(written, process, &mut entering);
}

/// Shows or veils those of the things that it is given that are early.
#[derive(Drop)]
struct Entering<'a, 'd> {
    store: &'a mut Store<'d>,
    design: &'a Design,
    sets: &'a Wakes,
    codes: &'a [Option<u32>],
    values: &'a CodeValues,
}

impl<'a, 'd> Names for Entering<'a, 'd> {
    ghost use Rattle.run_views.specs.design_model.View.{design_view};
    ghost use Rattle.early_sets.specs.WakeState.{state_of};
    ghost use Rattle.entry_values.specs.Entering.{IsReady, IsShownSince, ShowStart};

    ghost Start = { ShowStart };

    ghost named = { λ start names w. IsShownSince start names w.store.ghost_name (state_of w.sets.now).early w.codes.now w.values.now w.store.now };

    ghost ready = { λ w. IsReady (design_view w.design.now) (state_of w.sets.now) w.codes.now w.values.now w.store.now };

    fn name(&mut self, thing: u32) {
        if (thing as usize) < self.sets.things() && self.sets.early(thing) {
            show_early(self.store, self.design, thing, self.codes, self.values);
        }
    }
}
