ghost use Rattle.std.specs.Prelude.{◌≡◌};
ghost use Rattle.covered_cli.specs.Status.{code_of};

/// How a command ended.
#[derive(Clone, Copy)]
pub enum Status {
    /// What the command asks for was written or printed whole.
    Done,
    /// The words are no command.
    Usage,
    /// The sources have a fault, or the points of their design are not listed.
    Source,
    /// The dump has a fault, or it does not fit the design.
    Dump,
    /// No run of the design shows the dump.
    Contradiction,
    /// A call on the host failed, or a file that is to be read is absent.
    Files,
    /// Memory ran out.
    Memory,
    /// A database has a fault.
    Database,
}

impl Status {
    /// The number that the program ends with, from 0 to 7.
    pub fn code(&self) -> u8
        ensures { result ≡ code_of self.now }
    {
        *self as u8
    }
}
