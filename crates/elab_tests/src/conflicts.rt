//! Writings that are at odds, by the columns of their names.
ghost use Rattle.std.specs.Prelude.{◌+◌, ◌≤◌, All};
ghost use Rattle.elab_scope.specs.View.{IsWithin};

use cov_host::Place;
use elab_conflicts::{mixed, two_drivers};
use elab_scope::{NameAt, Written};
use flat_design::Thing;
use std::alloc::Global;

fn name(column: u32) -> NameAt<'static> {
    NameAt {
        name: b"x",
        place: Place {
            source: 1,
            line: 1,
            column,
        },
    }
}

/// A continuous assignment to bits of signal 7.
fn drives(column: u32, low: u32, count: u32, process: u32) -> Written<'static>
    requires { low + count ≤ 128 }
    ensures { IsWithin result }
{
    Written {
        name: name(column),
        thing: Thing::Signal(7),
        low,
        count,
        blocking: true,
        continuous: true,
        process,
    }
}

/// An assignment to four bits in an always block.
fn sets(column: u32, thing: Thing, blocking: bool, process: u32) -> Written<'static>
    ensures { IsWithin result }
{
    Written {
        name: name(column),
        thing,
        low: 0,
        count: 4,
        blocking,
        continuous: false,
        process,
    }
}

/// The same to signal 7.
fn blocks(column: u32, process: u32) -> Written<'static>
    ensures { IsWithin result }
{
    sets(column, Thing::Signal(7), true, process)
}

/// The same, nonblocking.
fn delays(column: u32, process: u32) -> Written<'static>
    ensures { IsWithin result }
{
    sets(column, Thing::Signal(7), false, process)
}

/// The column of the name at which a second driver is met, 0 for none.
fn second_driver(alloc: Global, writings: &[Written<'static>]) -> Option<u32>
    requires { All IsWithin writings.now }
{
    match two_drivers(alloc, writings) {
        Ok(found) => Some(found.map_or(0, |name| name.place.column)),
        Err(_) => None,
    }
}

/// The column of the name at which blocking and nonblocking assignments are met, 0 for none.
fn both_kinds(alloc: Global, writings: &[Written<'static>]) -> Option<u32>
    requires { All IsWithin writings.now }
{
    match mixed(alloc, writings) {
        Ok(found) => Some(found.map_or(0, |name| name.place.column)),
        Err(_) => None,
    }
}

#[test]
fn no_second_driver_of_a_bit(rt: HostRuntime) {
    let apart = [drives(9, 0, 4, 1), drives(5, 4, 4, 2), drives(7, 3, 0, 3)];
    assert!(rt; second_driver(rt.alloc(), &apart) == Some(0));
}

#[test]
fn a_second_driver_of_a_bit(rt: HostRuntime) {
    let shared = [drives(9, 0, 4, 1), drives(5, 3, 4, 2), drives(7, 6, 2, 3)];
    assert!(rt; second_driver(rt.alloc(), &shared) == Some(7));
    let wide = [drives(3, 127, 1, 1), drives(2, 0, 128, 1)];
    assert!(rt; second_driver(rt.alloc(), &wide) == Some(3));
}

#[test]
fn one_process(rt: HostRuntime) {
    let one = [blocks(3, 1), blocks(2, 1), delays(8, 1)];
    assert!(rt; second_driver(rt.alloc(), &one) == Some(0));
    let memory = sets(9, Thing::Memory(7), true, 2);
    assert!(rt; second_driver(rt.alloc(), &[blocks(3, 1), memory]) == Some(0));
}

#[test]
fn a_second_process(rt: HostRuntime) {
    let two = [blocks(3, 1), blocks(9, 2), delays(8, 2)];
    assert!(rt; second_driver(rt.alloc(), &two) == Some(8));
    let driven = [blocks(3, 1), drives(2, 8, 0, 2)];
    assert!(rt; second_driver(rt.alloc(), &driven) == Some(3));
}

#[test]
fn mixed_assignments(rt: HostRuntime) {
    assert!(rt; both_kinds(rt.alloc(), &[delays(3, 1), delays(2, 1)]) == Some(0));
    let both = [delays(3, 1), delays(2, 1), blocks(8, 1), blocks(6, 1)];
    assert!(rt; both_kinds(rt.alloc(), &both) == Some(6));
}
