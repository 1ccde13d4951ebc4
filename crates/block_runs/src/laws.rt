//! What the runs of blocks promise to the replay of a dump.

ghost use Rattle.block_runs.specs.Runs.{OutcomesLaw};

use body_replay::runs_lawful;

/// The outcomes of the processes of a lawful design, which are what [`crate::run_body`] gives, are runs that keep all that the
/// replay of a dump takes from the runs of bodies.
pub fn outcomes_law()
    ensures { OutcomesLaw }
{
    runs_lawful();
}
