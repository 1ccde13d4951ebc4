//! The values of constants (IEEE 1364-2001, clause 4).

ghost use Rattle.std.specs.Prelude.{◌≡◌, ◌≤◌, false, true, ⊤};
ghost use Rattle.std.specs.List.{list_all};
ghost use Rattle.four_state.specs.Vector.{fill};
ghost use Rattle.four_state.specs.declared.bit.Bit.TheVariants.{X};
ghost use Rattle.known_state.specs.Partly.{whole_of};
ghost use Rattle.design_model.specs.Design.{is_memory as has_memory, memory_at};
ghost use Rattle.design_model.specs.Lawful.{IsLawfulDesign, is_memory_of, is_signal};
ghost use Rattle.design_model.specs.View.{design_view, term_view};
ghost use Rattle.scene_laws.specs.term_replay.Stands.{IsInContext};
ghost use Rattle.fsm_extract.specs.Walked.{constant_of};

use crate::constant::is_constant;
use design_model::{Design, Memory, Range, Term};
use four_state::{Bit, Four};
use known_state::Known;
use scene_laws::{Notes, Progress, Reads, Spot, evaluate};

/// A design of which each bit reads x. A constant reads none.
#[derive(Drop)]
pub(crate) struct Strange<'a> {
    design: &'a Design,
    ghost signals: { list_all (is_signal (design_view design.now)) (design_view design.now).signals ≡ true },
    ghost memories: { list_all (is_memory_of (design_view design.now)) (design_view design.now).memories ≡ true },
}

impl<'a> Strange<'a> {
    /// The design, with each bit x.
    pub(crate) fn new(design: &'a Design) -> Self
        requires { IsLawfulDesign (design_view design.now) }
        ensures { result.design.now ≡ design.now }
    {
        Strange { design }
    }

    /// The value of a term that mentions no signal and no memory. Other terms give none.
    pub(crate) fn constant(&self, term: &Term) -> Option<Four>
        requires { IsInContext (design_view self.now.design.now) (term_view term.now) }
        ensures { result ≡ constant_of (design_view self.now.design.now) (term_view term.now) }
    {
        if !is_constant(term) {
            return None;
        }
        let run = Progress {
            mode: None,
            first: None,
        };
        let mut notes = Unnoted;
        Some(evaluate(self, term, run, &mut notes).value.value())
    }

    /// The memory with a number.
    fn memory(&self, memory: u32) -> &Memory
        requires { has_memory (design_view self.now.design.now) memory ≡ true }
        ensures { result.now ≡ memory_at (design_view self.now.design.now) memory }
    {
        &self.design.memories.as_slice()[memory as usize - self.design.signals.len()]
    }
}

impl<'a> Reads for Strange<'a> {
    ghost use Rattle.fsm_extract.specs.Strange.{strange_scene};

    ghost scene = { λ reads. strange_scene (design_view reads.design.now) };

    fn signal(&self, signal: u32) -> Known {
        all_x(self.design.signals.as_slice()[signal as usize].width)
    }

    fn word(&self, memory: u32, _index: &Known) -> Known {
        all_x(self.memory(memory).width)
    }

    fn blame(&self, _memory: u32) -> u32 {
        0
    }

    fn wrote(&self, _memory: u32) -> bool {
        false
    }

    fn signal_range(&self, signal: u32) -> Range {
        let signal = &self.design.signals.as_slice()[signal as usize];
        Range {
            high: signal.high,
            low: signal.low,
        }
    }

    fn word_range(&self, memory: u32) -> Range {
        let memory = self.memory(memory);
        Range {
            high: memory.high,
            low: memory.low,
        }
    }

    fn words(&self, memory: u32) -> Range {
        let memory = self.memory(memory);
        Range {
            high: memory.first,
            low: memory.last,
        }
    }
}

/// A vector of which each bit is sure to be x.
fn all_x(width: u8) -> Known
    requires at_least { 1 ≤ width }
    requires at_most { width ≤ 128 }
    ensures { result ≡ whole_of (record { bits = fill width X; signed = false }) }
{
    Known::whole(Four::fill(width, false, Bit::X))
}

/// Keeps no notes.
#[derive(Drop)]
struct Unnoted;

impl Notes for Unnoted {
    ghost Start = { Unit {0} };

    ghost noted = { λ _ _ _. ⊤ };

    fn note(&mut self, _spot: Spot, _doubt: Option<u32>) {}
}
