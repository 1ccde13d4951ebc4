ghost use Rattle.design_model.specs.FlipFlop.{IsSteadyExample, IsFallingExample};
ghost use Rattle.design_model.specs.Gate.{IsGateExample};
ghost use Rattle.design_model.specs.Pipe.{IsPipeExample};
ghost use Rattle.design_model.specs.Ram.{IsRamExample};
ghost use Rattle.design_model.specs.WordBit.{IsWordBitExample};

/// A register whose data input stays: a run shows the dump, and in every run that shows it the branch taken is hit.
pub fn steady_register()
    ensures { IsSteadyExample }
{}

/// A register whose data input moves with the clock: by the free habit the input is in doubt for the branches, by the
/// late habit the branch of the old value is hit in every run.
pub fn moving_input()
    ensures { IsFallingExample }
{}

/// A net that the dump lacks is clear from its assignment.
pub fn undumped_net()
    ensures { IsGateExample }
{}

/// A register that the dump lacks is clear once the inputs of its combinational block have changed.
pub fn undumped_register()
    ensures { IsPipeExample }
{}

/// A word of a memory is clear once it is surely written, and stays so.
pub fn memory_word()
    ensures { IsRamExample }
{}

/// A bit of a word of a memory reads the index of the bit, then that of the word, then the word.
pub fn bit_of_word()
    ensures { IsWordBitExample }
{}
