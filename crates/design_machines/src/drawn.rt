//! The machines of what is drawn.

ghost use Rattle.std.specs.Prelude.{◌≡◌, ◌++◌, IfOk, OnOk, length, map};
ghost use Rattle.std.specs.List.{All};
ghost use Rattle.four_state.specs.Vector.{Vector, same_bits};
ghost use Rattle.state_machines.specs.Drawn.{digit_of, digits_of};
ghost use Rattle.design_machines.specs.Drawn.{HasOneWidth, drawn_machine, values_of};

use crate::Machine;
use crate::fault::name_of;
use cov_host::{Name, NoMemory, Sequence};
use four_state::{Bit, CaseKind, Four};
use state_machines::Drawn;
use std::alloc::Global;

/// Adds a machine for each that is drawn.
pub(crate) fn push_drawn(
    alloc: Global,
    drawn: &[Drawn],
    found: &mut Vec<Machine>,
) -> Result<(), NoMemory>
    requires { All HasOneWidth drawn.now }
    ensures { OnOk result (found.new.items ≡ found.old.items ++ map drawn_machine drawn.now) }
{
    for one in drawn {
        found.push(drawn_machine(alloc, one)?)?;
    }
    Ok(())
}

/// The machine of a state that is drawn, or of two states and the arc from the first to the second.
fn drawn_machine(alloc: Global, drawn: &Drawn) -> Result<Machine, NoMemory>
    requires { HasOneWidth drawn.now }
    ensures { IfOk result (λ machine. machine ≡ drawn_machine drawn.now) }
{
    let values = values_of(alloc, drawn)?;
    let names = digits_of_all(alloc, values.as_slice())?;
    Ok(Machine {
        instance: drawn.instance,
        variable: name_of(alloc, drawn.name.as_slice())?,
        signal: drawn.signal,
        names: Sequence::from_vec(names),
        values: Sequence::from_vec(values),
        leaving: 1,
    })
}

/// The values that are drawn, each once.
fn values_of(alloc: Global, drawn: &Drawn) -> Result<Vec<Four>, NoMemory>
    requires { HasOneWidth drawn.now }
    ensures { IfOk result (λ values. values.items ≡ values_of drawn.now) }
{
    let mut values = Vec::new(alloc);
    values.push(drawn.from)?;
    if !is_same(&drawn.from, &drawn.to) {
        values.push(drawn.to)?;
    }
    Ok(values)
}

/// Whether two values of one width are the same, bit by bit.
fn is_same(a: &Four, b: &Four) -> bool
    requires { length a.now.bits ≡ length b.now.bits }
    ensures { result ≡ same_bits a.now.bits b.now.bits }
{
    Four::label(CaseKind::Exact, a, b)
}

/// The digits of values.
fn digits_of_all(alloc: Global, values: &[Four]) -> Result<Vec<Name>, NoMemory>
    ensures { IfOk result (λ names. names.items ≡ map digits_of values.now) }
{
    let mut names = Vec::new(alloc);
    for value in values {
        names.push(digits_of(alloc, value)?)?;
    }
    Ok(names)
}

/// The digits of a value, the highest first.
fn digits_of(alloc: Global, value: &Four) -> Result<Name, NoMemory>
    ensures { IfOk result (λ digits. digits ≡ digits_of value.now) }
{
    let count = value.width();
    let mut digits = Vec::new(alloc);
    for place in 0..count {
        digits.push(digit_of(value.bit(count - 1 - place)))?;
    }
    Ok(Name::from_vec(digits))
}

/// The digit of a bit.
fn digit_of(bit: Bit) -> u8
    ensures { result ≡ digit_of bit }
{
    match bit {
        Bit::Zero => b'0',
        Bit::One => b'1',
        Bit::X => b'x',
        Bit::Z => b'z',
    }
}
