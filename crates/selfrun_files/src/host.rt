ghost use Rattle.std.specs.Prelude.{◌≤◌};
ghost use Rattle.cov_host.specs.Outside.{IsCounted};
ghost use Rattle.selfrun_files.specs.Files.{HasTexts, files_outside};

use crate::SelfrunFiles;
use crate::dump::GeneratedDump;
use crate::input::{Input, read_source};
use crate::source::{DUMP_NAME, SOURCE_NAME};
use cov_host::{Failed, Host, HostFault, OpenFault};

impl SelfrunFiles {
    /// The files for this number and this many steps, at most a million. Nothing is being read.
    pub fn new(number: u32, steps: u32) -> Self
        requires { steps ≤ 1000000 }
        ensures { HasTexts number steps (files_outside result) }
    {
        SelfrunFiles {
            number,
            steps,
            input: Input::Nothing,
            at: 0,
            dump: GeneratedDump::new(number, steps),
            is_writing: false,
            absences: 0,
            mute: 0,
        }
    }
}

impl Host for SelfrunFiles {
    ghost use Rattle.selfrun_files.specs.Files.{files_outside};

    ghost outside = { files_outside };

    fn open_read(&mut self, name: &str) -> Result<(), OpenFault> {
        match name {
            SOURCE_NAME => {
                self.at = 0;
                self.input = Input::Source;
                Ok(())
            }
            DUMP_NAME => {
                self.dump = GeneratedDump::new(self.number, self.steps);
                self.input = Input::Dump;
                Ok(())
            }
            _ => {
                self.input = Input::Nothing;
                raise(&mut self.absences);
                Err(OpenFault::Absent)
            }
        }
    }

    fn read(&mut self, piece: &mut [u8]) -> Result<usize, Failed> {
        match self.input {
            Input::Nothing => Ok(0),
            Input::Source => Ok(read_source(&mut self.at, piece)),
            Input::Dump => Ok(self.dump.read(piece)),
        }
    }

    fn open_write(&mut self, _name: &str) -> Result<(), HostFault> {
        self.is_writing = false;
        Err(HostFault::NoMemory)
    }

    fn write(&mut self, _piece: &[u8]) -> Result<usize, HostFault> {
        Err(HostFault::NoMemory)
    }

    fn close_write(&mut self) -> Result<(), HostFault> {
        self.is_writing = false;
        Err(HostFault::NoMemory)
    }

    fn print(&mut self, _piece: &[u8]) -> Result<(), HostFault> {
        Err(HostFault::NoMemory)
    }

    fn warn(&mut self, _piece: &[u8]) -> Result<(), HostFault> {
        raise(&mut self.mute);
        Err(HostFault::NoMemory)
    }
}

/// Raises a count by one. It stays at its greatest value.
fn raise(count: &mut u64)
    ensures counted { IsCounted count.old count.new }
    ensures no_fewer { count.old ≤ count.new }
{
    *count = count.saturating_add(1);
}
