ghost use Rattle.std.specs.Prelude.{◌≡◌, IfOk};
ghost use Rattle.state_machines.specs.Machines.{drawn_of};

use crate::names::name_of;
use cov_host::{Name, NoMemory};
use four_state::Four;
use std::alloc::Global;

/// A state that is drawn, where both values are the same, or two states and the arc from the first to the second.
#[derive(Drop)]
pub struct Drawn {
    /// The number of the instance.
    pub instance: u32,
    /// The name that the instance has for the signal.
    pub name: Name,
    /// The number of the signal.
    pub signal: u32,
    /// The first value.
    pub from: Four,
    /// The second value.
    pub to: Four,
}

/// What is drawn of these values.
pub(crate) fn drawn_of(
    alloc: Global,
    instance: u32,
    name: &str,
    signal: u32,
    from: &Four,
    to: &Four,
) -> Result<Drawn, NoMemory>
    ensures { IfOk result (λ drawn. drawn ≡ drawn_of instance name.now signal from.now to.now) }
{
    Ok(Drawn {
        instance,
        name: name_of(alloc, name)?,
        signal,
        from: *from,
        to: *to,
    })
}
