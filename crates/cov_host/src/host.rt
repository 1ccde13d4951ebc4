ghost use Rattle.std.specs.Prelude.{◌≡◌, true, false, OnOk, OnErr, IfOk, IsErrOf};
ghost use Rattle.cov_host.specs.Outside.{Outside, Told, Appends, AppendsPrefix, IsCounted, KeepsFiles, KeepsInput, KeepsOutput, KeepsStreams, CountsFaults, CountsAbsences, CountsMute, IsOpened, IsAbsent, IsRead, IsCreated, IsNotCreated, IsWritten, IsPartlyWritten};

use crate::{Failed, HostFault, OpenFault};

/// The outside of the program. One file is read and one is written at a time.
///
/// `Failed` is answered only where the count of faults rose or is at its greatest value, so a host cannot
/// give up without a cause. Want of memory has no such count, except for `warn`.
pub trait Host {
    /// What is known of the outside.
    ghost outside: { Self → Outside };

    /// Opens a file for reading at its first byte, and closes the one read before.
    /// After a refusal no file is being read.
    fn open_read(&mut self, name: &str) -> Result<(), OpenFault>
        ensures opened { OnOk result (IsOpened name.now (outside self.old) (outside self.new)) }
        ensures absent { IsErrOf result OpenFault.Absent → IsAbsent name.now (outside self.old) }
        ensures refused { OnErr result ((outside self.new).reading ≡ false) }

        ensures absent_is_counted { IsErrOf result OpenFault.Absent → IsCounted (outside self.old).absences (outside self.new).absences }
        ensures failed_is_counted { IsErrOf result OpenFault.Failed → IsCounted (outside self.old).faults (outside self.new).faults }
        ensures counts { CountsAbsences (outside self.old) (outside self.new) }

        ensures files { KeepsFiles (outside self.old) (outside self.new) }
        ensures output { KeepsOutput (outside self.old) (outside self.new) }
        ensures streams { KeepsStreams (outside self.old) (outside self.new) };

    /// Reads the next bytes of the file into the front of the piece, and says how many. It takes no memory.
    /// None for a piece that is not empty means the end of the file. A failed read takes nothing from the file.
    fn read(&mut self, piece: &mut [u8]) -> Result<usize, Failed>
        requires { (outside self.old).reading ≡ true }
        ensures read { IfOk result (λ count. IsRead count piece.new (outside self.old) (outside self.new)) }
        ensures refused { OnErr result ((outside self.new).rest ≡ (outside self.old).rest) }
        ensures reading { (outside self.new).reading ≡ (outside self.old).reading }

        ensures failed_is_counted { OnErr result (IsCounted (outside self.old).faults (outside self.new).faults) }
        ensures counts { CountsFaults (outside self.old) (outside self.new) }

        ensures files { KeepsFiles (outside self.old) (outside self.new) }
        ensures output { KeepsOutput (outside self.old) (outside self.new) }
        ensures streams { KeepsStreams (outside self.old) (outside self.new) };

    /// Makes the file empty and opens it for writing. It may close the one written before.
    /// After a refusal no file is being written.
    fn open_write(&mut self, name: &str) -> Result<(), HostFault>
        ensures created { OnOk result (IsCreated name.now (outside self.old) (outside self.new)) }
        ensures refused { OnErr result (IsNotCreated name.now (outside self.old) (outside self.new)) }

        ensures failed_is_counted { IsErrOf result HostFault.Failed → IsCounted (outside self.old).faults (outside self.new).faults }
        ensures counts { CountsFaults (outside self.old) (outside self.new) }

        ensures input { KeepsInput (outside self.old) (outside self.new) }
        ensures streams { KeepsStreams (outside self.old) (outside self.new) };

    /// Appends first bytes of the piece to the file, and says how many.
    /// After a refusal some first bytes may have been appended, and the file is still being written.
    fn write(&mut self, piece: &[u8]) -> Result<usize, HostFault>
        requires { (outside self.old).writing ≡ true }
        ensures written { IfOk result (λ count. IsWritten count piece.now (outside self.old) (outside self.new)) }
        ensures refused { OnErr result (IsPartlyWritten piece.now (outside self.old) (outside self.new)) }

        ensures failed_is_counted { IsErrOf result HostFault.Failed → IsCounted (outside self.old).faults (outside self.new).faults }
        ensures counts { CountsFaults (outside self.old) (outside self.new) }

        ensures output { KeepsOutput (outside self.old) (outside self.new) }
        ensures input { KeepsInput (outside self.old) (outside self.new) }
        ensures streams { KeepsStreams (outside self.old) (outside self.new) };

    /// Closes the file with what was written. The writing ends after a refusal too.
    fn close_write(&mut self) -> Result<(), HostFault>
        requires { (outside self.old).writing ≡ true }
        ensures closed { (outside self.new).writing ≡ false }

        ensures failed_is_counted { IsErrOf result HostFault.Failed → IsCounted (outside self.old).faults (outside self.new).faults }
        ensures counts { CountsFaults (outside self.old) (outside self.new) }

        ensures files { KeepsFiles (outside self.old) (outside self.new) }
        ensures input { KeepsInput (outside self.old) (outside self.new) }
        ensures streams { KeepsStreams (outside self.old) (outside self.new) };

    /// Appends the piece to the standard output. After a refusal some first bytes of it may have been appended.
    fn print(&mut self, piece: &[u8]) -> Result<(), HostFault>
        ensures printed { OnOk result (Told (Appends piece.now) (outside self.old).printed (outside self.new).printed) }
        ensures refused { OnErr result (Told (AppendsPrefix piece.now) (outside self.old).printed (outside self.new).printed) }

        ensures failed_is_counted { IsErrOf result HostFault.Failed → IsCounted (outside self.old).faults (outside self.new).faults }
        ensures counts { CountsFaults (outside self.old) (outside self.new) }

        ensures warned { (outside self.new).warned ≡ (outside self.old).warned }
        ensures files { KeepsFiles (outside self.old) (outside self.new) }
        ensures input { KeepsInput (outside self.old) (outside self.new) }
        ensures output { KeepsOutput (outside self.old) (outside self.new) };

    /// Appends the piece to the warning output. After a refusal some first bytes of it may have been appended.
    fn warn(&mut self, piece: &[u8]) -> Result<(), HostFault>
        ensures warned { OnOk result (Told (Appends piece.now) (outside self.old).warned (outside self.new).warned) }
        ensures refused { OnErr result (Told (AppendsPrefix piece.now) (outside self.old).warned (outside self.new).warned) }

        ensures refused_is_counted { OnErr result (IsCounted (outside self.old).mute (outside self.new).mute) }
        ensures failed_is_counted { IsErrOf result HostFault.Failed → IsCounted (outside self.old).faults (outside self.new).faults }
        ensures counts { CountsMute (outside self.old) (outside self.new) }

        ensures printed { (outside self.new).printed ≡ (outside self.old).printed }
        ensures files { KeepsFiles (outside self.old) (outside self.new) }
        ensures input { KeepsInput (outside self.old) (outside self.new) }
        ensures output { KeepsOutput (outside self.old) (outside self.new) };
}
