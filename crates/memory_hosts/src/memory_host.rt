ghost use Rattle.std.specs.Prelude.{◌≡◌, ◌<◌, ◌≤◌, Some, true, false, OnOk, OnErr, IfOk, IsOkAnd, IsSomeAnd, IsTrue};
ghost use Rattle.std.specs.Bool.{OnFalse};
ghost use Rattle.std.specs.Option.{option_copied};
ghost use Rattle.cov_host.specs.Outside.{Told, HasFile, KeepsFiles, KeepsInput, KeepsOutput, KeepsStreams, KeepsCounts, empty_outside};

use crate::SureHost;
use crate::planned_faults::PlannedFaults;
use cov_host::{Calls, Failed, Host, HostFault, NoMemory, OpenFault};
use std::alloc::Global;

/// A host in memory with planned faults, of which all of the outside is known. It refuses the calls that were planned
/// to fail, absent files, and where memory runs out.
pub struct MemoryHost {
    sure: SureHost,
    planned: PlannedFaults,
    by_one_byte: bool,
}

// Written out so that a crate which lets one go does not prove again how each of its parts is let go.
impl Drop for MemoryHost {
    fn drop(self) {
        let MemoryHost {
            sure: _,
            planned: _,
            by_one_byte: _,
        } = self;
    }
}

impl MemoryHost {
    ghost use Rattle.memory_hosts.specs.MemoryHost.{memory_outside, memory_plan};

    /// No file, and nothing read, written, printed or warned. The calls of `Host` are numbered from 1, and those
    /// whose numbers are among the failing ones answer Failed.
    pub fn new(alloc: Global, failing: Calls) -> Result<Self, NoMemory>
        ensures empty { IsOkAnd result (λ host. memory_outside host ≡ empty_outside) }
        ensures plan { IfOk result (λ host. memory_plan host
            ≡ record { failing = failing; calls = 0; by_one_byte = false }) }
    {
        Ok(MemoryHost {
            sure: SureHost::new(alloc)?,
            planned: PlannedFaults::new(failing),
            by_one_byte: false,
        })
    }

    /// The bytes of a file, and none where there is no such file.
    pub fn file(&self, name: &str) -> Option<&[u8]>
        ensures { IsSomeAnd (memory_outside self.now).files (λ files. option_copied result ≡ files name.now) }
    {
        self.sure.file(name)
    }

    /// What went to the standard output.
    pub fn printed(&self) -> &[u8]
        ensures { (memory_outside self.now).printed ≡ Some result.now }
    {
        self.sure.printed()
    }

    /// What went to the warning output.
    pub fn warned(&self) -> &[u8]
        ensures { (memory_outside self.now).warned ≡ Some result.now }
    {
        self.sure.warned()
    }

    /// Gives a file these bytes, from outside of the program. What is being read keeps the bytes that it had when
    /// it was opened, and what is being written goes on at the end of these bytes. After a refusal nothing has
    /// changed.
    pub fn put(&mut self, name: &str, bytes: &[u8]) -> Result<(), NoMemory>
        ensures file { OnOk result (Told (HasFile name.now bytes.now)
            (memory_outside self.old).files (memory_outside self.new).files) }
        ensures refused { OnErr result (KeepsFiles (memory_outside self.old) (memory_outside self.new)) }
        ensures input { KeepsInput (memory_outside self.old) (memory_outside self.new) }
        ensures output { KeepsOutput (memory_outside self.old) (memory_outside self.new) }
        ensures streams { KeepsStreams (memory_outside self.old) (memory_outside self.new) }
        ensures counts { KeepsCounts (memory_outside self.old) (memory_outside self.new) }
        ensures plan { memory_plan self.new ≡ memory_plan self.old }
    {
        self.sure.put(name, bytes)
    }

    /// From here on each `read` and each `write` moves at most one byte.
    pub fn one_byte(&mut self)
        ensures same { memory_outside self.new ≡ memory_outside self.old }
        ensures plan { memory_plan self.new ≡ record (memory_plan self.old) { by_one_byte = true } }
    {
        self.by_one_byte = true;
    }

    /// How many bytes a piece of this length may move.
    fn portion(&self, length: usize) -> usize
        ensures within { result ≤ length }
        ensures some { 0 < length → 0 < result }
        ensures one { IsTrue self.now.by_one_byte → result ≤ 1 }
        ensures whole { OnFalse self.now.by_one_byte (result ≡ length) }
    {
        if self.by_one_byte {
            length.min(1)
        } else {
            length
        }
    }
}

impl Host for MemoryHost {
    ghost use Rattle.memory_hosts.specs.MemoryHost.{memory_outside};

    ghost outside = { memory_outside };

    fn open_read(&mut self, name: &str) -> Result<(), OpenFault> {
        if self.planned.next_call_fails() {
            self.sure.stop_reading();
            return Err(OpenFault::Failed);
        }
        self.sure.open_read(name)
    }

    fn read(&mut self, piece: &mut [u8]) -> Result<usize, Failed> {
        if self.planned.next_call_fails() {
            return Err(Failed);
        }
        let most = self.portion(piece.len());
        self.sure.read(&mut piece[..most])
    }

    fn open_write(&mut self, name: &str) -> Result<(), HostFault> {
        if self.planned.next_call_fails() {
            self.sure.stop_writing();
            return Err(HostFault::Failed);
        }
        self.sure.open_write(name)
    }

    fn write(&mut self, piece: &[u8]) -> Result<usize, HostFault> {
        if self.planned.next_call_fails() {
            return Err(HostFault::Failed);
        }
        let most = self.portion(piece.len());
        self.sure.write(&piece[..most])
    }

    fn close_write(&mut self) -> Result<(), HostFault> {
        if self.planned.next_call_fails() {
            self.sure.stop_writing();
            return Err(HostFault::Failed);
        }
        self.sure.close_write()
    }

    fn print(&mut self, piece: &[u8]) -> Result<(), HostFault> {
        if self.planned.next_call_fails() {
            return Err(HostFault::Failed);
        }
        self.sure.print(piece)
    }

    fn warn(&mut self, piece: &[u8]) -> Result<(), HostFault> {
        if self.planned.next_call_fails() {
            self.sure.count_refused_warning();
            return Err(HostFault::Failed);
        }
        self.sure.warn(piece)
    }
}
