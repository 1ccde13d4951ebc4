//! What holds of all texts of dumps.

ghost use Rattle.std.specs.Prelude.{◌≢◌, ℕ, List};
ghost use Rattle.design_model.specs.declared.design.Design.{Design};
ghost use Rattle.dump_replay.specs.replay_core.declared.fault.ReplayFault.{ReplayFault};
ghost use Rattle.dump_replay.specs.replay_core.declared.fault.ReplayFault.TheVariants as replay_fault;
ghost use Rattle.event_machine.specs.Habit.{Habit};
ghost use Rattle.signal_binding.specs.declared.fault.BindFault.{BindFault};
ghost use Rattle.signal_binding.specs.declared.fault.BindFault.TheVariants as bind_fault;
ghost use Rattle.vcd_reader.specs.declared.fault.DumpFault.TheVariants as dump_fault;
ghost use Rattle.vcd_reader.specs.declared.fault.DumpKind.{DumpKind};
ghost use Rattle.dump_score.specs.Faults.{IsTextFault};
ghost use Rattle.dump_score.specs.declared.fault.ScoreFault.TheVariants as score_fault;

/// A text that is refused for its binding is refused for nothing else: neither for a fault of its header, nor for one of
/// its body, nor for what the replay finds.
pub fn binding_goes_first()
    ensures fault { (habit : Habit) (design : Design) (instance text : List ℕ) (f : BindFault) (kind : DumpKind) (byte : ℕ) → f ≢ bind_fault.NoMemory
        → IsTextFault habit design instance text (score_fault.Bind f) → IsTextFault habit design instance text (score_fault.Dump (dump_fault.At kind byte)) → ⊥ }
    ensures replay { (habit : Habit) (design : Design) (instance text : List ℕ) (f : BindFault) (r : ReplayFault) → f ≢ bind_fault.NoMemory
        → IsTextFault habit design instance text (score_fault.Bind f) → IsTextFault habit design instance text (score_fault.Replay r) → ⊥ }
{}

/// A text is not refused for a first value that is missing and for a fault at once: what comes first in it decides.
pub fn first_values_go_in_order()
    ensures { (habit : Habit) (design : Design) (instance text : List ℕ) (s : ℕ) (kind : DumpKind) (byte : ℕ) → IsTextFault habit design instance text (score_fault.Replay (replay_fault.NoBaseline s))
        → IsTextFault habit design instance text (score_fault.Dump (dump_fault.At kind byte)) → ⊥ }
{}
