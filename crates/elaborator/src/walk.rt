//! A walk over the instances of modules, and what it has come to.

ghost use Rattle.std.specs.Prelude.{◌≡◌, Some, true, false, is_some, OnOk};
ghost use Rattle.design_model.specs.View.{design_view, process_view};
ghost use Rattle.design_model.specs.declared.design.Design as the;
ghost use Rattle.elaborator.specs.Walk.{IsClean, with_process};

use cov_host::NoMemory;
use design_model::{Design, Process};
use elab_scope::Tally;

/// A walk over the instances of modules.
#[derive(Drop)]
pub(crate) struct Walk<'a> {
    /// What was found so far.
    pub(crate) tally: Tally<'a>,
    /// How many memories were met.
    pub(crate) memories: u32,
    /// The design so far, if it is to be built. It is left as it is once a fault was found.
    pub(crate) draft: Option<Design>,
}

/// The number of the instance whose items are walked, and those of its next line point and counted node.
#[derive(Clone, Copy)]
pub(crate) struct Numbers {
    pub(crate) instance: u32,
    pub(crate) line: u32,
    pub(crate) node: u32,
}

impl<'a> Walk<'a> {
    /// Whether a design is built: one is wanted, and nothing was found.
    pub(crate) fn builds(&self) -> bool
        ensures clean { result ≡ true → IsClean self.now.tally }
        ensures drafted { result ≡ true → (d : the.Design) × (self.now.draft ≡ Some d) }
        ensures not { result ≡ false → (d : the.Design) → self.now.draft ≡ Some d → IsClean self.now.tally → ⊥ }
    {
        self.draft.is_some() && !self.tally.is_ended() && self.tally.first().is_none()
    }

    /// Adds a process to the design.
    pub(crate) fn add(&mut self, process: Process) -> Result<(), NoMemory>
        ensures tally { OnOk result (self.new.tally ≡ self.old.tally) }
        ensures memories { OnOk result (self.new.memories ≡ self.old.memories) }
        ensures drafted { OnOk result (is_some self.new.draft ≡ is_some self.old.draft) }
        ensures draft { OnOk result ((d : the.Design) → self.new.draft ≡ Some d → (o : the.Design) × (self.old.draft ≡ Some o) × (design_view d ≡ with_process (process_view process) (design_view o))) }
    {
        match &mut self.draft {
            Some(draft) => draft.add_process(process),
            None => {
                process.discard();
                Ok(())
            }
        }
    }
}
