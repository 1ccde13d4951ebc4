//! Tests of the words of a memory that are partly known.
ghost use Rattle.std.specs.Prelude.{◌≤◌};

use crate::memories::plain::Plain;
use crate::memories::random::Random;
use cov_host::NoMemory;
use four_state::{Bit, Four};
use known_state::Known;
use memory_rebuild::{Rebuilt, Shape};
use std::alloc::Global;

/// The unsigned vector of a number of so many bits.
fn number(width: u8, value: u64) -> Known
    requires at_least { 1 ≤ width }
    requires at_most { width ≤ 128 }
{
    Known::whole(Four::make(128, false, value as u128, 0).extend(width, false))
}

/// Writes a value, if it has the width and the sign of the words.
fn put(memory: &mut Rebuilt, index: &Known, value: &Known, certain: bool) -> bool {
    let shape = memory.shape();
    if value.width() != shape.width || value.is_signed() != shape.signed {
        return false;
    }
    memory.write(index, value, certain);
    true
}

/// Four words of one bit, all surely 0, and then a 1 at an index of which the high bit is 1 and the low one unsure.
fn four_words(alloc: Global) -> Result<Rebuilt, NoMemory> {
    let mut memory = Rebuilt::new(alloc, 0, 3, 1, false, 7)?;
    for place in 0..4 {
        put(&mut memory, &number(2, place), &number(1, 0), true);
    }
    let index = Known::unknown(2, false, 9).place(1, &number(1, 1));
    put(&mut memory, &index, &number(1, 1), true);
    Ok(memory)
}

/// The words that an unsure index cannot name stay sure, and those that it may name are sure no more. A read that names
/// no word is x.
#[test]
fn write_by_an_unsure_index(rt: HostRuntime) -> Result<(), NoMemory> {
    let memory = four_words(rt.alloc())?;
    assert!(rt; memory.read(&number(3, 0)) == number(1, 0));
    assert!(rt; memory.read(&number(3, 1)) == number(1, 0));
    assert!(rt; memory.read(&number(3, 2)) == Known::unknown(1, false, 7));
    assert!(rt; memory.read(&number(3, 3)) == Known::unknown(1, false, 7));
    assert!(rt; memory.read(&number(3, 4)) == Known::whole(Four::fill(1, false, Bit::X)));
    Ok(())
}

/// After all words were made unknown, one that is written is known and the others are not.
#[test]
fn words_of_a_new_epoch(rt: HostRuntime) -> Result<(), NoMemory> {
    let mut memory = four_words(rt.alloc())?;
    memory.smudge();
    assert!(rt; put(&mut memory, &number(2, 2), &number(1, 1), true));
    assert!(rt; memory.read(&number(2, 2)) == number(1, 1));
    assert!(rt; memory.read(&number(2, 0)) == Known::unknown(1, false, 7));
    Ok(())
}

/// A read is blamed on its index where that is not sure, and else on the memory.
#[test]
fn blames(rt: HostRuntime) -> Result<(), NoMemory> {
    let mut memory = Rebuilt::new(rt.alloc(), 0, 3, 1, false, 7)?;
    assert!(rt;
        put(
            &mut memory,
            &number(2, 0),
            &Known::unknown(1, false, 5),
            true
        )
    );
    assert!(rt; memory.read(&number(2, 0)).blame() == 7);
    assert!(rt; memory.read(&Known::unknown(2, false, 9)).blame() == 9);
    Ok(())
}

/// A memory of which the most is asked: the greatest bounds, and words of 128 bits.
#[test]
fn bounds_that_are_far_apart(rt: HostRuntime) -> Result<(), NoMemory> {
    let mut memory = Rebuilt::new(rt.alloc(), u32::MAX, u32::MAX - 1, 128, true, 7)?;
    let value = Known::whole(Four::fill(128, true, Bit::One));
    assert!(rt; put(&mut memory, &number(32, u32::MAX as u64), &value, true));
    assert!(rt; memory.read(&number(128, u32::MAX as u64)) == value);
    assert!(rt; memory.read(&Known::unknown(128, true, 1)) == Known::unknown(128, true, 1));
    assert!(rt;
        memory.read(&number(31, u32::MAX as u64)) == Known::whole(Four::fill(128, true, Bit::X))
    );
    Ok(())
}

/// Whether the same reads come of the memory and of the plain list, by an index that looks random.
fn agree(memory: &Rebuilt, plain: &Plain, random: &mut Random) -> bool {
    for blame in 1..4 {
        let signed = random.chance(3);
        let width = if random.chance(3) { 2 } else { 3 };
        let index = random.known(width, signed, blame);
        if memory.read(&index) != plain.read(&index) {
            return false;
        }
    }
    true
}

/// Whether a memory and a plain list agree after each of a number of writes.
fn agree_after_writes(alloc: Global, shape: &Shape, seed: u64) -> Result<bool, NoMemory>
    requires at_least { 1 ≤ shape.now.width }
    requires at_most { shape.now.width ≤ 128 }
{
    let mut random = Random::new(seed);
    let mut memory = Rebuilt::new(alloc, shape.first, shape.last, shape.width, shape.signed, 7)?;
    let count = shape.first.abs_diff(shape.last) as usize + 1;
    let least = shape.first.min(shape.last);
    let mut plain = Plain::new(alloc, least, count, shape.width, shape.signed, 7)?;
    for _ in 0..100 {
        if random.chance(20) {
            memory.smudge();
            plain.smudge();
        }
        let signed = random.chance(3);
        let index = random.known(3, signed, 5);
        let value = random.known(shape.width, shape.signed, 6);
        let certain = !random.chance(4);
        plain.write(&index, &value, certain);
        if !put(&mut memory, &index, &value, certain) || !agree(&memory, &plain, &mut random) {
            return Ok(false);
        }
    }
    Ok(true)
}

/// All reads are those of the plain list.
#[test]
fn same_as_a_plain_list(rt: HostRuntime) -> Result<(), NoMemory> {
    for seed in 0..8 {
        let shape = Shape {
            first: if seed % 2 == 0 { 0 } else { 6 },
            last: 3,
            width: 2,
            signed: seed % 3 == 0,
            blame: 7,
        };
        assert!(rt; agree_after_writes(rt.alloc(), &shape, seed)?);
    }
    Ok(())
}
