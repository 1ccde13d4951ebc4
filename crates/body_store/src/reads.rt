ghost use Rattle.std.specs.Prelude.{◌≡◌, ◌-◌, ◌<◌, length, true};
ghost use Rattle.design_model.specs.Design.{is_memory};

use crate::{Store, StoredMemory};
use body_calls::Reads;
use design_model::Range;
use known_state::Known;

impl<'a> Store<'a> {
    ghost use Rattle.design_model.specs.View.{design_view};
    ghost use Rattle.body_store.specs.Fitting.{memory_in};
    ghost use Rattle.body_store.specs.Scenes.{scene_of};

    /// What is held of a memory.
    pub(crate) fn memory(&self, memory: u32) -> &StoredMemory
        requires { is_memory (design_view self.now.design.now) memory ≡ true }
        ensures { result.now ≡ memory_in self.now.memories.items (memory - length self.now.design.now.signals) }
    {
        &self.memories[memory as usize - self.signals.len()]
    }
}

impl<'a> Reads for Store<'a> {
    ghost use Rattle.body_store.specs.Scenes.{scene_of};

    ghost scene = { scene_of };

    fn signal(&self, signal: u32) -> Known {
        self.signals.read(signal)
    }

    fn word(&self, memory: u32, index: &Known) -> Known {
        self.memory(memory).words.read(index)
    }

    fn blame(&self, memory: u32) -> u32 {
        memory
    }

    fn wrote(&self, memory: u32) -> bool {
        self.memory(memory).written
    }

    fn signal_range(&self, signal: u32) -> Range {
        self.signals.range(signal)
    }

    fn word_range(&self, memory: u32) -> Range {
        let memory = &self.design.memories.as_slice()[memory as usize - self.signals.len()];
        Range {
            high: memory.high,
            low: memory.low,
        }
    }

    fn words(&self, memory: u32) -> Range {
        let memory = &self.design.memories.as_slice()[memory as usize - self.signals.len()];
        Range {
            high: memory.first,
            low: memory.last,
        }
    }
}
