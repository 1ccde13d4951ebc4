ghost use Rattle.std.specs.Prelude.{◌≡◌};
ghost use Rattle.flat_design.specs.declared.fault.ElabFault.TheVariants as variant;
ghost use Rattle.flat_design.specs.Fault.{limit_number, told_constant};
ghost use Rattle.flat_design.specs.FaultText.{elab_text};

use cov_host::{Name, NoMemory, Place};
use elab_const::ConstFault;
use std::alloc::{AllocError, AllocFailed};

/// What is wrong with modules and a top, apart from the faults of constants. Each is reported with a name and the place
/// of that name's token; where two things are in conflict it is the later one.
#[derive(Clone, Copy)]
pub enum ElabKind {
    /// No module has this name. For the top there is no place.
    NoModule = 1,
    /// Two modules have this name.
    TwoModules = 2,
    /// A module is inside itself. The place is the module's name in the item.
    Recursion = 3,
    /// A name without declaration.
    Undeclared = 4,
    /// A name that is declared twice.
    TwiceDeclared = 5,
    /// A connection or override that names no port or parameter, one given twice, or too many; a listed port without
    /// direction; an output joined to what is no net, or to an input. The name is that of the port or parameter, or by
    /// position that of the module.
    PortMismatch = 6,
    /// A bit of a net with two drivers, or a variable or memory that two processes write.
    TwoDrivers = 7,
    /// Blocking and nonblocking assignments to one signal or memory.
    MixedAssign = 8,
    /// A list of names that lacks a signal which the block reads and does not assign, or a memory that is read under
    /// such a list.
    Incomplete = 9,
    /// An edge of what is no signal of one bit.
    EventNotBit = 10,
    /// A continuous assignment that reads a bit which it drives, or by an index that is not constant a net of which it
    /// drives a bit.
    SelfAssign = 11,
    /// A limit is passed. The name is the limit's number as a digit, and the place is the first token of the item or
    /// statement.
    Limit = 12,
    /// A continuous assignment to a variable, a procedural one to a net, any to an input, a parameter or a loop
    /// variable, a memory written in a combinational block, or a part of a word written.
    WrongTarget = 13,
    /// A loop variable read outside its loop, an inner loop over the variable of an outer one, a memory without an
    /// index, a select on what has no range, a constant select out of range, or a memory in a list or connection.
    WrongUse = 14,
}

impl ElabKind {
    /// The stage, the number and the name, as messages have them.
    pub fn text(self) -> &'static str
        ensures { result.now ≡ elab_text self }
    {
        match self {
            ElabKind::NoModule => "elab 1 NoModule",
            ElabKind::TwoModules => "elab 2 TwoModules",
            ElabKind::Recursion => "elab 3 Recursion",
            ElabKind::Undeclared => "elab 4 Undeclared",
            ElabKind::TwiceDeclared => "elab 5 TwiceDeclared",
            ElabKind::PortMismatch => "elab 6 PortMismatch",
            ElabKind::TwoDrivers => "elab 7 TwoDrivers",
            ElabKind::MixedAssign => "elab 8 MixedAssign",
            ElabKind::Incomplete => "elab 9 Incomplete",
            ElabKind::EventNotBit => "elab 10 EventNotBit",
            ElabKind::SelfAssign => "elab 11 SelfAssign",
            ElabKind::Limit => "elab 12 Limit",
            ElabKind::WrongTarget => "elab 13 WrongTarget",
            ElabKind::WrongUse => "elab 14 WrongUse",
        }
    }
}

/// The limits of a design.
#[derive(Clone, Copy)]
pub enum DesignLimit {
    /// 65,536 signals.
    Signals,
    /// 65,536 processes.
    Processes,
    /// 65,536 words in one memory.
    MemoryWords,
    /// 262,144 words in all memories.
    Words,
    /// 65,536 instances, 64 deep.
    Instances,
    /// 256 bytes in a path.
    Path,
    /// 1,048,576 statements with each turn of a loop written out.
    Statements,
    /// 134,217,728 parts of text that is gone through: of each module once for each instance, and of each statement once
    /// for each turn of the loops around it. A name counts its bytes and one.
    Text,
}

impl DesignLimit {
    /// Its number, from 1 to 8.
    pub fn number(self) -> u8
        ensures { result ≡ limit_number self }
    {
        match self {
            DesignLimit::Signals => 1,
            DesignLimit::Processes => 2,
            DesignLimit::MemoryWords => 3,
            DesignLimit::Words => 4,
            DesignLimit::Instances => 5,
            DesignLimit::Path => 6,
            DesignLimit::Statements => 7,
            DesignLimit::Text => 8,
        }
    }
}

/// Why modules and a top have no flat design.
#[derive(Drop)]
pub enum ElabFault {
    /// Memory ran out.
    NoMemory,
    /// An expression has no constant value, or a loop has no turns.
    Const(ConstFault),
    /// Something else is wrong at a place.
    At {
        /// What is wrong.
        kind: ElabKind,
        /// None for a top that no module has.
        place: Option<Place>,
        /// The name that the fault is reported with, or the number of a limit.
        detail: Name,
    },
}

impl From<ConstFault> for ElabFault {
    ghost from_gives = { λ constant fault. fault ≡ told_constant constant };

    fn from(fault: ConstFault) -> Self {
        match fault {
            ConstFault::NoMemory => ElabFault::NoMemory,
            fault => ElabFault::Const(fault),
        }
    }
}

impl From<AllocError> for ElabFault {
    ghost from_gives = { λ _ fault. fault ≡ variant.NoMemory };

    fn from(_: AllocError) -> Self {
        ElabFault::NoMemory
    }
}

impl<T: Drop> From<AllocFailed<T>> for ElabFault {
    ghost from_gives = { λ _ fault. fault ≡ variant.NoMemory };

    fn from(_: AllocFailed<T>) -> Self {
        ElabFault::NoMemory
    }
}

impl From<NoMemory> for ElabFault {
    ghost from_gives = { λ _ fault. fault ≡ variant.NoMemory };

    fn from(_: NoMemory) -> Self {
        ElabFault::NoMemory
    }
}
