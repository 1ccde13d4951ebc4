//! The signals and memories that the body of a process mentions.

ghost use Rattle.std.specs.Prelude.{◌≡◌, [], OnOk};
ghost use Rattle.design_model.specs.View.{process_view};
ghost use Rattle.wake_bits.specs.Mentions.{mentioned_names};

use cov_host::NoMemory;
use design_model::Process;
use process_names::push_level;

/// Puts what the body of an Assign or Comb mentions on an empty list, in the order in which it is read.
pub(crate) fn push_mentioned(process: &Process, found: &mut Vec<u32>) -> Result<(), NoMemory>
    requires { found.old.items ≡ [] }
    ensures { OnOk result (found.new.items ≡ mentioned_names (process_view process.now)) }
{
    push_level(process, found)?;
    if let Process::Comb { wakes, .. } = process {
        found.truncate(found.len() - wakes.len());
    }
    Ok(())
}
