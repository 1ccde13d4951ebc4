ghost use Rattle.std.specs.Prelude.{◌≤◌};
ghost use Rattle.cov_host.specs.Outside.{IsCounted};

/// Raises a count by one. It stays at its greatest value.
pub fn raise(count: &mut u64)
    ensures counted { IsCounted count.old count.new }
    ensures no_fewer { count.old ≤ count.new }
{
    *count = count.saturating_add(1);
}
