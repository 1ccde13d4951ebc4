ghost use Rattle.std.specs.Prelude.{◌≡◌, ◌<◌, length, IfSome};
ghost use Rattle.coverage_db.specs.Order.{address_cmp};
ghost use Rattle.coverage_db.specs.Table.{IsTable, Rises};
ghost use Rattle.point_lookup.specs.Keys.{seen};
ghost use Rattle.point_lookup.specs.Lookup.{HasAddressAt, IsSearch, place_of};

use crate::key::Key;
use crate::key_reader::read_key;
use crate::matcher::is_address;
use coverage_db::{Db, DbPoint};

/// The place of the point with this address, from 0. It is searched in the order of the points, so that it takes a
/// number of comparisons that grows as the logarithm of the number of points, and it takes no memory.
pub fn find_point(db: &Db, address: &[u8]) -> Option<usize>
    requires { IsTable db.now }
    ensures place { result ≡ place_of db.now address.now }
    ensures within { IfSome result (λ place. place < length db.now.points) }
{
    let Some(key) = read_key(db.instances.as_slice(), address) else {
        return None;
    };
    let Some(place) = search_points(db.points.as_slice(), &key) else {
        return None;
    };
    if has_address(db, place, address) {
        Some(place)
    } else {
        None
    }
}

/// A place at which the order cannot distinguish the point from the key.
fn search_points(points: &[DbPoint], key: &Key<'_>) -> Option<usize>
    requires { Rises (λ a b. address_cmp a.address b.address) points.now }
    ensures { IsSearch points.now (seen key.now) result }
{
    points
        .binary_search_by(|point| key.compare(&point.address))
        .ok()
}

/// Whether the point at this place has this address.
fn has_address(db: &Db, place: usize, address: &[u8]) -> bool
    requires { place < length db.now.points }
    ensures { HasAddressAt db.now place address.now result }
{
    is_address(&db.instances, &db.points.as_slice()[place].address, address)
}
