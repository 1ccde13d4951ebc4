ghost use Rattle.std.specs.Prelude.{◌≡◌};
ghost use Rattle.vcd_reader.specs.declared.fault.DumpFault.TheVariants as dump_fault;

use cov_host::NoMemory;
use std::alloc::{AllocError, AllocFailed};

/// What is wrong with a dump.
#[derive(Clone, Copy, PartialEq, Eq)]
pub enum DumpKind {
    /// A word of the header that the grammar does not allow there.
    BadHeader = 1,
    /// A word of the body that the grammar does not allow there.
    BadChange = 2,
    /// A change of a code that no variable has.
    UnknownCode = 3,
    /// More digits than the variable has bits.
    VectorTooLong = 4,
    /// A time that is less than the one before.
    TimeBack = 5,
    /// The input ends where the grammar goes on.
    Truncated = 6,
    /// A code of more than 8 bytes.
    LongCode = 7,
    /// The dump goes on for the 1,024th time.
    Gap = 8,
    /// A scope inside 64 others.
    DeepScope = 9,
    /// A body that passes the greatest length.
    DumpTooLong = 10,
    /// A time of 2^63 or more.
    TimeTooLarge = 11,
    /// A header that passes the greatest length.
    HeaderTooLong = 12,
}

impl DumpKind {
    ghost use Rattle.vcd_reader.specs.Kinds.{kind_number, kind_text};

    /// The number of the kind in messages.
    pub fn number(self) -> u8
        ensures { result ≡ kind_number self }
    {
        self as u8
    }

    /// The number and the name, as messages have them.
    pub fn text(self) -> &'static str
        ensures { result.now ≡ kind_text self }
    {
        match self {
            DumpKind::BadHeader => "1 BadHeader",
            DumpKind::BadChange => "2 BadChange",
            DumpKind::UnknownCode => "3 UnknownCode",
            DumpKind::VectorTooLong => "4 VectorTooLong",
            DumpKind::TimeBack => "5 TimeBack",
            DumpKind::Truncated => "6 Truncated",
            DumpKind::LongCode => "7 LongCode",
            DumpKind::Gap => "8 Gap",
            DumpKind::DeepScope => "9 DeepScope",
            DumpKind::DumpTooLong => "10 DumpTooLong",
            DumpKind::TimeTooLarge => "11 TimeTooLarge",
            DumpKind::HeaderTooLong => "12 HeaderTooLong",
        }
    }
}

/// Why a dump was not read. The byte is the offset of the fault in the dump, from 0.
#[derive(Clone, Copy, PartialEq, Eq)]
pub enum DumpFault {
    /// Memory ran out.
    NoMemory,
    /// This is wrong at this byte.
    At { kind: DumpKind, byte: u64 },
}

impl DumpFault {
    /// A fault at this byte.
    pub(crate) fn at(kind: DumpKind, byte: u64) -> Self
        ensures { result ≡ dump_fault.At kind byte }
    {
        DumpFault::At { kind, byte }
    }
}

impl From<NoMemory> for DumpFault {
    ghost from_gives = { λ _ fault. fault ≡ dump_fault.NoMemory };

    fn from(_: NoMemory) -> Self {
        DumpFault::NoMemory
    }
}

impl From<AllocError> for DumpFault {
    ghost from_gives = { λ _ fault. fault ≡ dump_fault.NoMemory };

    fn from(_: AllocError) -> Self {
        DumpFault::NoMemory
    }
}

impl<T: Drop> From<AllocFailed<T>> for DumpFault {
    ghost from_gives = { λ _ fault. fault ≡ dump_fault.NoMemory };

    fn from(_: AllocFailed<T>) -> Self {
        DumpFault::NoMemory
    }
}
