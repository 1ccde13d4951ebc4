ghost use Rattle.std.specs.Prelude.{◌≡◌, ◌+◌, ◌≤◌, ℕ, [], IfOk, false, length, true};
ghost use Rattle.std.specs.List.{All};
ghost use Rattle.design_model.specs.View.{design_view};
ghost use Rattle.write_log.specs.value_store.Signals.{HasWidth};
ghost use Rattle.write_log.specs.Logs.{IsLogOf};
ghost use Rattle.word_log.specs.Logs.{IsWordLogOf};
ghost use Rattle.body_store.specs.Tests.{SameTests};
ghost use Rattle.body_store.specs.Counted.{IsCounted};
ghost use Rattle.body_store.specs.Fitting.{FitsDesign};
ghost use Rattle.body_store.specs.Updates.{are_taken};
ghost use Rattle.body_store.specs.Veils.{FitsVeils};

use crate::unknown::memories;
use crate::veils::Veils;
use crate::{StoredMemory, Update};
use cov_host::NoMemory;
use design_model::Design;
use std::alloc::Global;
use word_log::WordLog;
use write_log::{Log, Queue, Signals, log_room, queue_room};

/// What is known of the signals and memories of a design, between the runs of bodies and while one runs.
pub struct Store<'a> {
    /// The design, whose declared ranges are read.
    pub(crate) design: &'a Design,
    /// What is known of the signals.
    pub(crate) signals: Signals,
    /// What is known of the memories, in the design's order.
    pub(crate) memories: Vec<StoredMemory>,
    /// The undecided tests around, and what their branches have overwritten of signals.
    pub(crate) log: Log,
    /// What they have overwritten of the words of memories.
    pub(crate) words: WordLog,
    /// The updates that nonblocking assignments have queued, in order.
    pub(crate) updates: Queue<Update>,
    /// The memories that are veiled, and what is kept of those.
    pub(crate) veils: Veils,
    ghost fits: { FitsDesign design.now.signals design.now.memories signals memories.items },
    ghost logged: { IsLogOf signals log },
    ghost sized: { log.depth ≡ log.room },
    ghost words_logged: { IsWordLogOf memories.items words },
    ghost tests: { SameTests log words },
    ghost counted: { IsCounted (design_view design.now) log.room updates.room },
    ghost taken: { are_taken (design_view design.now) updates.items ≡ true },
    ghost veiled: { FitsVeils (length design.now.signals) design.now.memories veils },
}

// Written out so that a crate which lets one go does not prove again how each of its parts is let go.
impl Drop for Store<'_> {
    fn drop(self) {
        let Store {
            design: _,
            signals: _,
            memories: _,
            log: _,
            words: _,
            updates: _,
            veils: _,
        } = self;
    }
}

impl<'a> Store<'a> {
    ghost use Rattle.body_store.specs.Bodies.{around_of, queued_of, rooms_of};
    ghost use Rattle.body_store.specs.Views.{hides, under_of};
    ghost use Rattle.body_store.specs.Made.{HasWordWidth, nothing, unblamed};
    ghost use Rattle.body_store.specs.Held.{HoldsStore, ReadsStore};

    /// Nothing is known of any signal or memory, each is to blame for itself, no signal is shown or veiled, and nothing is
    /// queued. All memory that is ever needed is taken here, with room in the log for the run of any body, and in the queue for
    /// all parts of the nonblocking assignments of the design.
    pub fn new(alloc: Global, design: &'a Design) -> Result<Self, NoMemory>
        requires widths { All HasWidth design.now.signals }
        requires word_widths { All HasWordWidth design.now.memories }
        requires few_signals { length design.now.signals ≤ 65536 }
        requires few_memories { length design.now.memories ≤ 262144 }
        ensures holds { IfOk result (λ made. HoldsStore (design_view design.now) nothing unblamed made) }
        ensures reads { IfOk result (λ made. ReadsStore (design_view design.now) nothing unblamed made) }
        ensures design { IfOk result (λ made. made.design.now ≡ design.now) }
        ensures queued { IfOk result (λ made. queued_of made ≡ []) }
        ensures around { IfOk result (λ made. around_of made ≡ []) }
        ensures hides { IfOk result (λ made. (x : ℕ) → hides made x ≡ false) }
        ensures log { IfOk result (λ made. (rooms_of made).log ≡ (under_of made).log) }
        ensures queue { IfOk result (λ made. (rooms_of made).queue ≡ made.updates.room) }
    {
        let signals = Signals::new(alloc, design.signals.as_slice())?;
        let memories = memories(
            alloc,
            design.memories.as_slice(),
            design.signals.len() as u32,
        )?;
        let room = log_room(design);
        let log = Log::new(alloc, design.signals.len(), room, room)?;
        let words = WordLog::new(alloc, memories.as_slice(), room, room)?;
        let updates = Queue::new(alloc, queue_room(design.processes.as_slice()))?;
        let veils = Veils::new(
            alloc,
            design.memories.as_slice(),
            design.signals.len() as u32,
        )?;
        Ok(Store {
            design,
            signals,
            memories,
            log,
            words,
            updates,
            veils,
        })
    }
}
