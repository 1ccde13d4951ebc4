//! Tests of `design_model`: the paths of a signal and of a memory.

use cov_host::{Name, NoMemory, Sequence};
use design_model::{Design, Instance, Memory, Signal};
use std::alloc::Global;

fn name(alloc: Global, text: &str) -> Result<Name, NoMemory> {
    Ok(Name::from_vec(Vec::from_slice(alloc, text.as_bytes())?))
}

fn instance(alloc: Global, path: &str, module: &str) -> Result<Instance, NoMemory> {
    Ok(Instance {
        path: name(alloc, path)?,
        module: name(alloc, module)?,
    })
}

fn instances(alloc: Global) -> Result<Sequence<Instance>, NoMemory> {
    let mut instances = Sequence::new(alloc);
    instances.push(instance(alloc, "top", "top")?)?;
    instances.push(instance(alloc, "top.count", "counter")?)?;
    Ok(instances)
}

fn signals(alloc: Global) -> Result<Sequence<Signal>, NoMemory> {
    let mut signals = Sequence::new(alloc);
    signals.push(Signal {
        instance: 0,
        name: name(alloc, "clk")?,
        high: 0,
        low: 0,
        ranged: false,
        width: 1,
        signed: false,
        input: true,
    })?;
    Ok(signals)
}

fn memories(alloc: Global) -> Result<Sequence<Memory>, NoMemory> {
    let mut memories = Sequence::new(alloc);
    memories.push(Memory {
        instance: 1,
        name: name(alloc, "words")?,
        first: 0,
        last: 3,
        high: 7,
        low: 0,
        ranged: true,
        width: 8,
        signed: false,
    })?;
    Ok(memories)
}

// A counter with a memory, inside a top module.
fn counter(alloc: Global) -> Result<Design, NoMemory> {
    Ok(Design {
        top: name(alloc, "top")?,
        instances: instances(alloc)?,
        signals: signals(alloc)?,
        memories: memories(alloc)?,
        processes: Sequence::new(alloc),
        constants: Sequence::new(alloc),
        aliases: Sequence::new(alloc),
    })
}

fn has_path(alloc: Global, thing: u32, path: &[u8]) -> Result<bool, NoMemory> {
    let design = counter(alloc)?;
    if thing as usize >= design.signals.len() + design.memories.len() {
        return Ok(false);
    }
    Ok(design.path(alloc, thing)?.as_slice() == path)
}

#[test]
fn path_of_a_signal(rt: HostRuntime) {
    assert!(rt; matches!(has_path(rt.alloc(), 0, "top.clk".as_bytes()), Ok(true)));
}

#[test]
fn path_of_a_memory(rt: HostRuntime) {
    assert!(rt;
        matches!(
            has_path(rt.alloc(), 1, "top.count.words".as_bytes()),
            Ok(true)
        )
    );
}
