//! The abstract machine of IEEE 1364-2001 clause 5 and the theorems of its steps. There is no code: each function's
//! contract states theorems.
//!
//! A machine says which things each process is sensitive to, what it may write, and what its evaluation writes
//! (`specs/Machine.antt`). The theorems hold for any such machine, any values, and any division of the inputs into
//! those whose change over a step is given (`is_told`), and those that may move in any step: what wakes a
//! process ([`waking_law`]), what keeps its value ([`rest_law`]), when a process is evaluated on settled values
//! ([`settled_law`]), that a clean block is evaluated exactly once ([`edge_law`]), and that the sets of a step are
//! the least ones ([`least_law`]).
#![tactic(auto)]

ghost use Rattle.std.specs.Prelude.{◌≡◌};
ghost use Rattle.event_machine.specs.Machine.{Machine, IsLawful};
ghost use Rattle.event_machine.specs.Habit.{Free, Late};
ghost use Rattle.event_machine.specs.Laws.{WakingLaw, OwnWriteLaw, RestLaw, UnchangedLaw, NoEventLaw, NoWakeLaw, WriteLaw, SettledLaw, IdleLaw, ComputedLaw, NetLaw, EdgeLaw, FreeHabitLaw, NoWakingMoveLaw, LateHabitLaw, EarlyLaw, LeastMayMove, LeastEarly, RoundsLaw};
ghost use Rattle.event_machine.specs.LastRound.{LastRoundLaw};
ghost use Rattle.event_machine.specs.SharedEarly.{SharedEarlyLaw};
ghost use Rattle.event_machine.specs.Example.{IsWorkedExample};

/// An event wakes each process that is level-sensitive to what it changes, except that a process's own writes do not
/// wake it.
pub fn waking_law<V>()
    ensures wakes { (m : Machine V) → IsLawful m → WakingLaw m }
    ensures own_write { (m : Machine V) → OwnWriteLaw m }
{}

/// In a step no thing changes at any event unless it may move, and a Clocked that cannot wake is not evaluated.
/// Where the changes of all inputs are given and no input changes there is no event.
pub fn rest_law<V>()
    ensures rest { (m : Machine V) → IsLawful m → RestLaw m }
    ensures unchanged { (m : Machine V) → IsLawful m → UnchangedLaw m }
    ensures no_wake { (m : Machine V) → IsLawful m → NoWakeLaw m }
    ensures no_event { (m : Machine V) → IsLawful m → NoEventLaw m }
{}

/// Where a wake cell of a process changes over a step, the process is evaluated, at last on settled values. Each
/// process so is evaluated or is idle, and over a whole run the target of each Assign has its value.
pub fn settled_law<V>()
    ensures settled { (m : Machine V) → IsLawful m → SettledLaw m }
    ensures idle { (m : Machine V) → IsLawful m → IdleLaw m }
    ensures computed { (m : Machine V) → IsLawful m → ComputedLaw m }
    ensures nets { (m : Machine V) → IsLawful m → NetLaw m }
{}

/// A clean block is evaluated exactly once in the step, on its trigger's new value and, early things aside, on the
/// values of the step's start.
pub fn edge_law<V>()
    ensures free { (m : Machine V) → IsLawful m → EdgeLaw m Free }
    ensures late { (m : Machine V) → IsLawful m → EdgeLaw m Late }
{}

/// A cell that a process may write ends a step as the process's evaluations in it leave it.
pub fn write_law<V>()
    ensures { (m : Machine V) → IsLawful m → WriteLaw m }
{}

/// The free habit allows any Move. Without a waking Move the late habit does so too; else data inputs wait for the
/// last waking Move and a quiet moment.
pub fn habit_law<V>()
    ensures free { (m : Machine V) → FreeHabitLaw m }
    ensures no_waking_move { (m : Machine V) → NoWakingMoveLaw m }
    ensures late { (m : Machine V) → LateHabitLaw m }
{}

/// What may move, and what is early, is the least set by its rules: it lies in each set that is closed under them.
/// What is early for a clean block may move.
pub fn least_law<V>()
    ensures may_move { (m : Machine V) → LeastMayMove m }
    ensures early { (m : Machine V) → LeastEarly m }
    ensures early_may_move { (m : Machine V) → IsLawful m → EarlyLaw m }
{}

/// What is early for a trigger is the same for two blocks without blocking targets.
pub fn sharing_law<V>()
    ensures { (m : Machine V) → SharedEarlyLaw m }
{}

/// From round to round the single cells grow, and what may move and what can wake shrinks. From a round on whose single
/// cells are those of the next, nothing changes.
pub fn rounds_law<V>()
    ensures grows { (m : Machine V) → RoundsLaw m }
    ensures ends { (m : Machine V) → LastRoundLaw m }
{}

/// A divided clock in one step, as a machine: it is lawful, its step is one by either habit, the block of the divided
/// clock is clean in the second round, and so it is evaluated once. So no premise of the laws is empty.
pub fn worked_example()
    ensures { IsWorkedExample }
{}
