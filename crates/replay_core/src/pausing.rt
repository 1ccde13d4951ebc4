//! What is forgotten where a dump goes off.

ghost use Rattle.std.specs.Prelude.{◌≡◌, false, length};
ghost use Rattle.body_store.specs.Made.{nothing};
ghost use Rattle.code_values.specs.Values.{no_values};
ghost use Rattle.cover_points.specs.declared.listing.Points.{Points as ThePoints};
ghost use Rattle.design_model.specs.Lawful.{IsLawfulDesign};
ghost use Rattle.design_model.specs.View.{design_view};
ghost use Rattle.first_step.specs.store_knowledge.Knows.{Knows};
ghost use Rattle.step_words.specs.Words.{FitsRanges, HasWords};
ghost use Rattle.replay_core.specs.Fits.{FitsParts};
ghost use Rattle.replay_core.specs.declared.tables.ReplayTables.{ReplayTables as TheTables};

use crate::room::ReplayRoom;
use crate::state::ReplayState;
use body_store::premises_law;
use design_model::Design;
use first_step::forget_all;

/// Nothing is known any more of a signal or word, no code has a value, and the states of all machines are to be marked once more.
/// It takes time for the design's signals, the codes and the words that are followed, and no memory.
pub(crate) fn forget_values(design: &Design, room: &mut ReplayRoom, state: &mut ReplayState)
    requires lawful { IsLawfulDesign (design_view design.now) }
    requires fits { (points : ThePoints) × (tables : TheTables) × FitsParts (design_view design.now) points tables room.old state.old }
    ensures room { room.new ≡ record room.old { words = room.new.words } }
    ensures state { state.new ≡ record state.old { values = no_values (length state.old.values.last); store = state.new.store; machines = state.new.machines } }
    ensures knows { Knows (design_view design.now) nothing state.new.store }
    ensures ranges { FitsRanges (design_view design.now) state.old.notes.written.ranges room.new.words }
    ensures words { HasWords (design_view design.now) nothing state.old.notes.written.ranges room.new.words }
    ensures index { state.new.machines.index ≡ state.old.machines.index }
    ensures told { state.new.machines.told ≡ false }
{
    premises_law();
    room.words.forget(design.memories.as_slice());
    forget_all(&mut state.store);
    state.values.forget();
    state.machines.forget();
}
