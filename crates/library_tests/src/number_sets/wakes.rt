ghost use Rattle.std.specs.Prelude.{◌≡◌};

use cov_host::NoMemory;
use std::alloc::Global;
use wake_list::WakeList;

/// Three calls with two processes, of which the second is put before the first.
fn keeps_order(alloc: Global) -> Result<bool, NoMemory> {
    let mut list = WakeList::new(alloc, 8)?;
    let three = list.put(3, 1);
    let five = list.put(5, 0);
    let again = list.put(3, 0);
    let taken = (list.take(), list.take(), list.take());
    Ok(three && five && !again && matches!(taken, (Some(5), Some(3), None)))
}

#[test]
fn order_of_ranks(rt: HostRuntime) {
    assert!(rt; matches!(keeps_order(rt.alloc()), Ok(true)));
}

/// A list for no process contains no process, and one that is emptied is used again.
fn empties(alloc: Global) -> Result<bool, NoMemory> {
    let mut none = WakeList::new(alloc, 0)?;
    let nothing = none.take().is_none() && none.is_empty();
    let mut list = WakeList::new(alloc, 4)?;
    list.put(2, 3);
    list.put(1, 3);
    let some = !list.is_empty();
    list.clear();
    let gone = list.is_empty();
    let again = list.put(2, 0);
    Ok(nothing && some && gone && again && matches!(list.take(), Some(2)))
}

#[test]
fn emptied_lists(rt: HostRuntime) {
    assert!(rt; matches!(empties(rt.alloc()), Ok(true)));
}

/// A process and its rank.
#[derive(Clone, Copy)]
struct Waiting {
    process: u32,
    rank: u32,
}

/// Puts a process into a plain list in order of rank, unless it is there.
fn put_plainly(waiting: &mut Vec<Waiting>, process: u32, rank: u32) -> Result<bool, NoMemory> {
    let mut place = waiting.len();
    for index in 0..waiting.len() {
        if waiting[index].process == process {
            return Ok(false);
        }
        if waiting[index].rank > rank {
            place = place.min(index);
        }
    }
    waiting.insert(place, Waiting { process, rank })?;
    Ok(true)
}

/// Takes the first process out of a plain list.
fn take_plainly(waiting: &mut Vec<Waiting>) -> Option<u32> {
    if waiting.is_empty() {
        None
    } else {
        Some(waiting.remove(0).process)
    }
}

/// One call on both lists, chosen by a number: whether they answer alike.
fn agrees_once(
    number: u32,
    list: &mut WakeList,
    waiting: &mut Vec<Waiting>,
) -> Result<bool, NoMemory>
    requires { list.old.count ≡ 16 }
    ensures { list.new.count ≡ 16 }
{
    if number / 65_536 % 3 == 0 {
        return Ok(list.take() == take_plainly(waiting));
    }
    let process = number / 268_435_456;
    let rank = number / 1_024 % 4;
    Ok(list.put(process, rank) == put_plainly(waiting, process, rank)?)
}

/// Many calls on both lists, chosen by a sequence of numbers that begins with this one.
fn agrees(alloc: Global, seed: u32) -> Result<bool, NoMemory> {
    let mut list = WakeList::new(alloc, 16)?;
    let mut waiting = Vec::new(alloc);
    let mut number = seed;
    for _ in 0..300 {
        number = number.wrapping_mul(1_664_525).wrapping_add(1_013_904_223);
        if !agrees_once(number, &mut list, &mut waiting)? {
            return Ok(false);
        }
    }
    Ok(list.is_empty() == waiting.is_empty())
}

#[test]
fn like_a_sorted_list(rt: HostRuntime) {
    assert!(rt; matches!(agrees(rt.alloc(), 1), Ok(true)));
    assert!(rt; matches!(agrees(rt.alloc(), 77), Ok(true)));
}
