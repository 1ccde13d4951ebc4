ghost use Rattle.std.specs.Prelude.{◌≡◌};
ghost use Rattle.early_sets.specs.Reached.{is_apart};

/// What a set leaves out: nothing for what may move; for what is early for a clean block its trigger, and what the block
/// itself writes by blocking assignments.
#[derive(Clone, Copy)]
pub(crate) struct Rule {
    /// The trigger, which is not in the set.
    pub(crate) trigger: Option<usize>,
    /// The block whose blocking targets are not in the set on its account.
    pub(crate) block: Option<usize>,
}

/// Whether the number is not that one.
pub(crate) fn is_apart(from: Option<usize>, number: usize) -> bool
    ensures { result ≡ is_apart from number }
{
    match from {
        Some(other) => number != other,
        None => true,
    }
}
