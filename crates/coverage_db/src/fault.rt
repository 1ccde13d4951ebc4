ghost use Rattle.std.specs.Prelude.{◌≡◌};
ghost use Rattle.coverage_db.specs.FaultText.{kind_text};
ghost use Rattle.coverage_db.specs.declared.fault.DbFault.TheVariants as db_fault;
ghost use Rattle.coverage_db.specs.declared.fault.MergeFault.TheVariants as merge_fault;

use cov_host::{Name, NoMemory};

/// What is wrong with a database text.
#[derive(Clone, Copy, PartialEq, Eq)]
pub enum DbKind {
    /// The line does not fit.
    BadLine,
    /// The text is of another version.
    WrongVersion,
    /// There are not as many points as the line says.
    WrongCount,
    /// The text is longer than 2,147,483,648 bytes.
    DbTooLong,
}

impl DbKind {
    /// The number and the name, as messages have them.
    pub fn text(self) -> &'static str
        ensures { result.now ≡ kind_text self }
    {
        match self {
            DbKind::BadLine => "1 BadLine",
            DbKind::WrongVersion => "2 WrongVersion",
            DbKind::WrongCount => "3 WrongCount",
            DbKind::DbTooLong => "5 DbTooLong",
        }
    }
}

/// Why a database was not read.
#[derive(Clone, Copy, PartialEq, Eq)]
pub enum DbFault {
    /// Memory ran out.
    NoMemory,
    /// The text is no database.
    At {
        /// What is wrong.
        kind: DbKind,
        /// The number of the line, from 1. None where the text is too long.
        line: Option<u32>,
    },
}

impl From<NoMemory> for DbFault {
    ghost from_gives = { λ _ fault. fault ≡ db_fault.NoMemory };

    fn from(_: NoMemory) -> Self {
        DbFault::NoMemory
    }
}

/// Why two databases were not merged.
#[derive(Drop)]
pub enum MergeFault {
    /// Memory ran out.
    NoMemory,
    /// The databases are of different designs. Of the lines of their texts, each up to its verdict, this is the first
    /// that differs.
    DesignsDiffer {
        /// The number of the line, from 1.
        line: u32,
        /// The line of the left database.
        left: Name,
        /// The line of the right database.
        right: Name,
    },
}

impl From<NoMemory> for MergeFault {
    ghost from_gives = { λ _ fault. fault ≡ merge_fault.NoMemory };

    fn from(_: NoMemory) -> Self {
        MergeFault::NoMemory
    }
}
