ghost use Rattle.std.specs.Prelude.{◌≡◌, ◌≢◌, ◌<◌, ◌≤◌, ◌↔◌, None, [], length, is_some, OnErr, IfOk, IsErr, IsErrOf, MatchResult, Ok};
ghost use Rattle.std.specs.IoError.{error_kind};
ghost use Rattle.cov_host.specs.Outside.{IsCounted, untold_outside};

use crate::retry::{read_some, write_some};
use cov_host::{Failed, Host, HostFault, OpenFault, raise};
use std::alloc::Global;
use std::fs::OpenFile;
use std::io::{ErrorKind, Print, Read, Write};
use std::rt::{Files, Runtime};
use std::{fs, io};

/// The files, the standard output and the standard error of the system. Its contents are not known to contracts. What
/// the system does is not proved.
pub struct FileHost<R: Runtime, E: Print> {
    system: (R, Global),
    warnings: E,
    input: Option<R::File>,
    output: Option<R::File>,
    faults: u64,
    absences: u64,
    mute: u64,
}

// Written out so that a crate which lets one go does not prove again how each of its parts is let go.
impl<R: Runtime + Drop, E: Print + Drop> Drop for FileHost<R, E> {
    fn drop(self) {
        let FileHost {
            system: _,
            warnings: _,
            input: _,
            output: _,
            faults: _,
            absences: _,
            mute: _,
        } = self;
    }
}

impl<R: Runtime, E: Print> FileHost<R, E> {
    ghost use Rattle.file_host.specs.FileHost.{file_outside};

    /// Nothing is being read or written. Files are opened with the allocator, and warnings, which need not be text, go to the second stream.
    pub fn new(rt: R, warnings: E, alloc: Global) -> Self
        ensures { file_outside result ≡ untold_outside }
    {
        FileHost {
            system: (rt, alloc),
            warnings,
            input: None,
            output: None,
            faults: 0,
            absences: 0,
            mute: 0,
        }
    }
}

impl<R: Runtime, E: Print> Host for FileHost<R, E> {
    ghost use Rattle.file_host.specs.FileHost.{file_outside};

    ghost outside = { file_outside };

    fn open_read(&mut self, name: &str) -> Result<(), OpenFault> {
        self.input = None;
        match open_file(&self.system, name) {
            Ok(file) => {
                self.input = Some(file);
                Ok(())
            }
            Err(error) if error.kind() == ErrorKind::NotFound => {
                raise(&mut self.absences);
                Err(OpenFault::Absent)
            }
            Err(error) => match refusal(&mut self.faults, &error) {
                HostFault::Failed => Err(OpenFault::Failed),
                HostFault::NoMemory => Err(OpenFault::NoMemory),
            },
        }
    }

    fn read(&mut self, piece: &mut [u8]) -> Result<usize, Failed> {
        let file = self.input.as_mut().unwrap();
        match read_some(file, piece) {
            Ok(count) => Ok(count),
            Err(_) => {
                raise(&mut self.faults);
                Err(Failed)
            }
        }
    }

    fn open_write(&mut self, name: &str) -> Result<(), HostFault> {
        self.output = None;
        let file = counted(fs::create(&self.system, name), &mut self.faults)?;
        self.output = Some(file);
        Ok(())
    }

    fn write(&mut self, piece: &[u8]) -> Result<usize, HostFault> {
        let file = self.output.as_mut().unwrap();
        counted(write_some(file, piece), &mut self.faults)
    }

    fn close_write(&mut self) -> Result<(), HostFault> {
        let mut file = self.output.take().unwrap();
        counted(file.flush(), &mut self.faults)
    }

    fn print(&mut self, piece: &[u8]) -> Result<(), HostFault> {
        counted(self.system.write_all(piece), &mut self.faults)
    }

    fn warn(&mut self, piece: &[u8]) -> Result<(), HostFault> {
        let answer = self.warnings.write_all(piece);
        if answer.is_err() {
            raise(&mut self.mute);
        }
        counted(answer, &mut self.faults)
    }
}

/// Which refusal an error of the system is. A fault is counted, and want of memory is not.
fn refusal(faults: &mut u64, error: &io::Error) -> HostFault
    ensures memory { (result ≡ HostFault.NoMemory) ↔ (error_kind error.now ≡ ErrorKind.OutOfMemory) }
    ensures counted { result ≡ HostFault.Failed → IsCounted faults.old faults.new }
    ensures no_fewer { faults.old ≤ faults.new }
{
    if error.kind() == ErrorKind::OutOfMemory {
        return HostFault::NoMemory;
    }
    raise(faults);
    HostFault::Failed
}

/// The answer of the system as one of the host.
fn counted<T>(answer: io::Result<T>, faults: &mut u64) -> Result<T, HostFault>
    ensures same { MatchResult answer (λ value. result ≡ Ok value) (λ _. IsErr result) }
    ensures counted { IsErrOf result HostFault.Failed → IsCounted faults.old faults.new }
    ensures no_fewer { faults.old ≤ faults.new }
{
    match answer {
        Ok(value) => Ok(value),
        Err(error) => Err(refusal(faults, &error)),
    }
}

/// Opens a file for reading. A folder, which the system would open too, is refused.
fn open_file<R: Files>(system: &R, name: &str) -> io::Result<R::File> {
    let file = fs::open(system, name)?;
    if file.metadata()?.is_dir() {
        return Err(io::Error::from(ErrorKind::IsADirectory));
    }
    Ok(file)
}
