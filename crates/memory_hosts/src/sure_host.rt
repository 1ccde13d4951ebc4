ghost use Rattle.std.specs.Prelude.{◌≡◌, false, Some, OnOk, OnErr, IsOkAnd, IsSomeAnd, IsSome, string_bytes};
ghost use Rattle.std.specs.Option.{ForSome, option_copied};
ghost use Rattle.std.specs.BTreeMap.{get_by_text};
ghost use Rattle.cov_host.specs.Outside.{Told, HasFile, IsCounted, KeepsFiles, KeepsInput, KeepsOutput, KeepsStreams, KeepsCounts, CountsMute, empty_outside};

use crate::input::Input;
use cov_host::{Bytes, Failed, Host, HostFault, NoMemory, OpenFault, raise};
use std::alloc::Global;
use std::collections::BTreeMap;

/// A host in memory without faults, of which all of the outside is known. It refuses only absent files, and where
/// memory runs out.
pub struct SureHost {
    alloc: Global,
    files: BTreeMap<String, Bytes>,
    input: Option<Input>,
    output: Option<String>,
    printed: Bytes,
    warned: Bytes,
    absences: u64,
    mute: u64,
    ghost output_is_a_file: { ForSome output (λ name. IsSome (get_by_text files (string_bytes name))) },
}

// Written out so that a crate which lets one go does not prove again how each of its parts is let go.
impl Drop for SureHost {
    fn drop(self) {
        let SureHost {
            alloc: _,
            files: _,
            input: _,
            output: _,
            printed: _,
            warned: _,
            absences: _,
            mute: _,
        } = self;
    }
}

impl SureHost {
    ghost use Rattle.memory_hosts.specs.SureHost.{sure_outside};

    /// No file, and nothing read, written, printed or warned.
    pub fn new(alloc: Global) -> Result<Self, NoMemory>
        ensures { IsOkAnd result (λ host. sure_outside host ≡ empty_outside) }
    {
        Ok(SureHost {
            alloc,
            files: BTreeMap::new(alloc),
            input: None,
            output: None,
            printed: Bytes::new(alloc),
            warned: Bytes::new(alloc),
            absences: 0,
            mute: 0,
        })
    }

    /// The bytes of a file, and none where there is no such file.
    pub fn file(&self, name: &str) -> Option<&[u8]>
        ensures { IsSomeAnd (sure_outside self.now).files (λ files. option_copied result ≡ files name.now) }
    {
        let bytes = self.files.get(name)?;
        Some(bytes.as_slice())
    }

    /// What went to the standard output.
    pub fn printed(&self) -> &[u8]
        ensures { (sure_outside self.now).printed ≡ Some result.now }
    {
        self.printed.as_slice()
    }

    /// What went to the warning output.
    pub fn warned(&self) -> &[u8]
        ensures { (sure_outside self.now).warned ≡ Some result.now }
    {
        self.warned.as_slice()
    }

    /// Gives a file these bytes, from outside of the program. What is being read keeps the bytes that it had when
    /// it was opened, and what is being written goes on at the end of these bytes. After a refusal nothing has
    /// changed.
    pub fn put(&mut self, name: &str, bytes: &[u8]) -> Result<(), NoMemory>
        ensures file { OnOk result (Told (HasFile name.now bytes.now)
            (sure_outside self.old).files (sure_outside self.new).files) }
        ensures refused { OnErr result (KeepsFiles (sure_outside self.old) (sure_outside self.new)) }
        ensures input { KeepsInput (sure_outside self.old) (sure_outside self.new) }
        ensures output { KeepsOutput (sure_outside self.old) (sure_outside self.new) }
        ensures streams { KeepsStreams (sure_outside self.old) (sure_outside self.new) }
        ensures counts { KeepsCounts (sure_outside self.old) (sure_outside self.new) }
    {
        let name = String::from_str(self.alloc, name)?;
        let bytes = Bytes::from_vec(bytes.to_vec(self.alloc)?);
        self.files.insert(name, bytes)?;
        Ok(())
    }

    /// From here on no file is being read.
    pub(crate) fn stop_reading(&mut self)
        ensures stopped { (sure_outside self.new).reading ≡ false }
        ensures files { KeepsFiles (sure_outside self.old) (sure_outside self.new) }
        ensures output { KeepsOutput (sure_outside self.old) (sure_outside self.new) }
        ensures streams { KeepsStreams (sure_outside self.old) (sure_outside self.new) }
        ensures counts { KeepsCounts (sure_outside self.old) (sure_outside self.new) }
    {
        self.input = None;
    }

    /// From here on no file is being written.
    pub(crate) fn stop_writing(&mut self)
        ensures stopped { (sure_outside self.new).writing ≡ false }
        ensures files { KeepsFiles (sure_outside self.old) (sure_outside self.new) }
        ensures input { KeepsInput (sure_outside self.old) (sure_outside self.new) }
        ensures streams { KeepsStreams (sure_outside self.old) (sure_outside self.new) }
        ensures counts { KeepsCounts (sure_outside self.old) (sure_outside self.new) }
    {
        self.output = None;
    }

    /// Counts a warning that was refused.
    pub(crate) fn count_refused_warning(&mut self)
        ensures counted { IsCounted (sure_outside self.old).mute (sure_outside self.new).mute }
        ensures counts { CountsMute (sure_outside self.old) (sure_outside self.new) }
        ensures files { KeepsFiles (sure_outside self.old) (sure_outside self.new) }
        ensures input { KeepsInput (sure_outside self.old) (sure_outside self.new) }
        ensures output { KeepsOutput (sure_outside self.old) (sure_outside self.new) }
        ensures streams { KeepsStreams (sure_outside self.old) (sure_outside self.new) }
    {
        raise(&mut self.mute);
    }
}

impl Host for SureHost {
    ghost use Rattle.memory_hosts.specs.SureHost.{sure_outside};

    ghost outside = { sure_outside };

    fn open_read(&mut self, name: &str) -> Result<(), OpenFault> {
        self.stop_reading();
        let Some(bytes) = self.files.get(name) else {
            raise(&mut self.absences);
            return Err(OpenFault::Absent);
        };
        self.input = Some(Input::open(self.alloc, bytes.as_slice())?);
        Ok(())
    }

    fn read(&mut self, piece: &mut [u8]) -> Result<usize, Failed> {
        let input = self.input.as_mut().unwrap();
        Ok(input.read(piece))
    }

    fn open_write(&mut self, name: &str) -> Result<(), HostFault> {
        self.stop_writing();
        self.put(name, &[])?;
        self.output = Some(String::from_str(self.alloc, name)?);
        Ok(())
    }

    fn write(&mut self, piece: &[u8]) -> Result<usize, HostFault> {
        let name = self.output.as_ref().unwrap();
        let bytes = self.files.get_mut(name.as_str()).unwrap();
        bytes.extend_from_slice(piece)?;
        Ok(piece.len())
    }

    fn close_write(&mut self) -> Result<(), HostFault> {
        self.stop_writing();
        Ok(())
    }

    fn print(&mut self, piece: &[u8]) -> Result<(), HostFault> {
        self.printed.extend_from_slice(piece)?;
        Ok(())
    }

    fn warn(&mut self, piece: &[u8]) -> Result<(), HostFault> {
        if let Err(refused) = self.warned.extend_from_slice(piece) {
            self.count_refused_warning();
            return Err(HostFault::from(refused));
        }
        Ok(())
    }
}
