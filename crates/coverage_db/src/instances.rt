ghost use Rattle.std.specs.Prelude.{◌≡◌, ◌<◌, length, IfSome};
ghost use Rattle.coverage_db.specs.Order.{bytes_cmp};
ghost use Rattle.coverage_db.specs.Reading.{instance_of, is_thing};
ghost use Rattle.coverage_db.specs.Table.{Rises};

use crate::DbInstance;
use crate::split::split_last;
use cov_host::is_identifier;

/// The place of the instance with this path.
pub(crate) fn find_instance(instances: &[DbInstance], path: &[u8]) -> Option<usize>
    requires { Rises (λ a b. bytes_cmp a.path b.path) instances.now }
    ensures place { result ≡ instance_of instances.now path.now }
    ensures within { IfSome result (λ place. place < length instances.now) }
{
    instances
        .binary_search_by(|instance| instance.path.as_slice().cmp(path))
        .ok()
}

/// Whether the path is that of a signal or memory in one of the instances.
#[tactic(auto, unfolding(crate::specs::Reading::is_thing))]
pub(crate) fn is_thing(instances: &[DbInstance], path: &[u8]) -> bool
    requires { Rises (λ a b. bytes_cmp a.path b.path) instances.now }
    ensures { result ≡ is_thing instances.now path.now }
{
    match split_last(path, b'.') {
        Some((front, name)) => is_identifier(name) && find_instance(instances, front).is_some(),
        None => false,
    }
}
