/// A state of a machine, or an arc from one state to another. Machines and their states go by their places in their lists.
#[derive(Clone, Copy, PartialEq, Eq)]
pub enum MachinePoint {
    State { machine: u32, state: u32 },
    Arc { machine: u32, from: u32, to: u32 },
}
