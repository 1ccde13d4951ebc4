ghost use Rattle.std.specs.Prelude.{◌∷◌, [], ℕ, List};
ghost use Rattle.body_names.specs.Taken.{TakesNames};

/// Takes the signals and memories that a body mentions, in order. One that is mentioned twice comes twice.
pub trait Names {
    /// What is known of a sink when a walk starts.
    ghost Start: { Type 0 };

    /// The sink may have taken these numbers, in order, since this start.
    ghost named: { Start → List ℕ → Self → Type 0 };

    /// The sink can take a number.
    ghost ready: { Self → Type 0 };

    /// The body mentions the signal or memory with this number. It takes no memory.
    fn name(&mut self, thing: u32)
        requires { ready self.old }
        ensures ready { ready self.new }
        ensures named { TakesNames named self.old (thing ∷ []) self.new };
}
