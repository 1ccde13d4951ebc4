ghost use Rattle.std.specs.Prelude.{◌≡◌, ◌≢◌, ◌<◌, ◌≤◌, ◌^◌, [], ◌++◌, true, false, vec_len, OnOk, OnErr, IfOk, IfErr, IfSome, IsSomeAnd};
ghost use Rattle.cov_host.specs.Outside.{AppendsTo, HasFile, IsOpened, KeepsOutput, KeepsStreams, Told};
ghost use Rattle.whole_files.specs.Effects.{AppendsFront, CountsUp, HasTarget, HoldsFront, OnlyReads};
ghost use Rattle.whole_files.specs.declared.files.FileFault.TheVariants as file_fault;
ghost use Rattle.whole_files.specs.Files.{IfRefused, IsContent, IsPieceFault, IsReadFault, IsRestFault, IsWriteFault};

use crate::Call;
use cov_host::{Bytes, Failed, Host, HostFault, OpenFault};
use std::alloc::{AllocError, Global};

/// How many bytes are read at a time.
const PIECE: usize = 65_536;

/// Why a file was not read or written whole.
#[derive(Clone, Copy)]
pub enum FileFault {
    /// The call on the host gave nothing.
    Refused(Call),
    NoMemory,
}

impl From<AllocError> for FileFault {
    ghost from_gives = { λ _ fault. fault ≡ file_fault.NoMemory };

    fn from(_: AllocError) -> Self {
        FileFault::NoMemory
    }
}

/// The bytes of a file. Of one that is longer than `most` it reads at least one byte more than `most`.
pub fn read_file<H: Host>(
    alloc: Global,
    host: &mut H,
    name: &str,
    most: usize,
) -> Result<Bytes, FileFault>
    requires { most < 2 ^ 63 }
    ensures content { IfOk result (λ bytes. IfSome (H.outside host.old).files (λ files. IsSomeAnd (files name.now) (IsContent most bytes))) }
    ensures refused { IfErr result (IsReadFault name.now (H.outside host.old) (H.outside host.new)) }
    ensures effects { OnlyReads (H.outside host.old) (H.outside host.new) }
{
    open_to_read(host, name)?;
    let mut piece = zeros(alloc, PIECE)?;
    let mut bytes = Vec::new(alloc);
    while bytes.len() <= most {
        let before = bytes.len();
        read_some(host, piece.as_mut_slice(), &mut bytes)?;
        if bytes.len() == before {
            break;
        }
    }
    Ok(Bytes::from_vec(bytes))
}

/// `count` bytes to read into.
fn zeros(alloc: Global, count: usize) -> Result<Vec<u8>, AllocError>
    ensures { IfOk result (λ piece. vec_len piece ≡ count) }
{
    vec![in alloc; 0u8; count]
}

/// Opens a file for reading.
fn open_to_read<H: Host>(host: &mut H, name: &str) -> Result<(), FileFault>
    ensures opened { OnOk result (IsOpened name.now (H.outside host.old) (H.outside host.new)) }
    ensures refused { IfErr result (IsReadFault name.now (H.outside host.old) (H.outside host.new)) }
    ensures effects { OnlyReads (H.outside host.old) (H.outside host.new) }
{
    match host.open_read(name) {
        Ok(()) => Ok(()),
        Err(OpenFault::Absent) => Err(FileFault::Refused(Call::OpenRead)),
        Err(OpenFault::Failed) => Err(FileFault::Refused(Call::OpenRead)),
        Err(OpenFault::NoMemory) => Err(FileFault::NoMemory),
    }
}

/// Reads the next bytes of the file to the end of `bytes`. Only at the end of the file there is no next byte.
fn read_some<H: Host>(host: &mut H, piece: &mut [u8], bytes: &mut Vec<u8>) -> Result<(), FileFault>
    requires reading { (H.outside host.old).reading ≡ true }
    requires piece { piece.old ≢ [] }
    ensures moved { OnOk result (Told (λ rest left. bytes.old.items ++ rest ≡ bytes.new.items ++ left) (H.outside host.old).rest (H.outside host.new).rest) }
    ensures more { OnOk result (vec_len bytes.old ≤ vec_len bytes.new) }
    ensures end { OnOk result (vec_len bytes.new ≡ vec_len bytes.old → IfSome (H.outside host.old).rest (λ rest. rest ≡ [])) }
    ensures reading { (H.outside host.new).reading ≡ true }
    ensures refused { IfErr result (IsPieceFault (H.outside host.old) (H.outside host.new)) }
    ensures effects { OnlyReads (H.outside host.old) (H.outside host.new) }
{
    match host.read(piece) {
        Ok(count) => {
            bytes.extend_from_slice(&piece[..count])?;
            Ok(())
        }
        Err(Failed) => Err(FileFault::Refused(Call::Read)),
    }
}

/// Writes a file with this text. After a refusal the file is as before or holds a front of the text.
pub fn write_file<H: Host>(host: &mut H, name: &str, text: &[u8]) -> Result<(), FileFault>
    ensures written { OnOk result (Told (HasFile name.now text.now) (H.outside host.old).files (H.outside host.new).files) }
    ensures front { OnErr result (Told (HoldsFront name.now text.now) (H.outside host.old).files (H.outside host.new).files) }
    ensures closed { OnOk result ((H.outside host.new).writing ≡ false) }
    ensures refused { IfErr result (IsWriteFault name.now (H.outside host.old) (H.outside host.new)) }
    ensures streams { KeepsStreams (H.outside host.old) (H.outside host.new) }
    ensures counts { CountsUp (H.outside host.old) (H.outside host.new) }
{
    match host.open_write(name) {
        Ok(()) => {}
        Err(fault) => return Err(refused(Call::OpenWrite, fault)),
    }
    write_all(host, text)?;
    match host.close_write() {
        Ok(()) => Ok(()),
        Err(fault) => Err(refused(Call::CloseWrite, fault)),
    }
}

/// Appends a text to the file that is being written. After a refusal a front of it was appended.
fn write_all<H: Host>(host: &mut H, text: &[u8]) -> Result<(), FileFault>
    requires writing { (H.outside host.old).writing ≡ true }
    requires target { HasTarget (H.outside host.old) }
    ensures written { OnOk result (Told (AppendsTo (H.outside host.old).target text.now) (H.outside host.old).files (H.outside host.new).files) }
    ensures front { OnErr result (Told (AppendsFront (H.outside host.old).target text.now) (H.outside host.old).files (H.outside host.new).files) }
    ensures refused { IfErr result (IsRestFault (H.outside host.old) (H.outside host.new)) }
    ensures output { KeepsOutput (H.outside host.old) (H.outside host.new) }
    ensures streams { KeepsStreams (H.outside host.old) (H.outside host.new) }
    ensures counts { CountsUp (H.outside host.old) (H.outside host.new) }
{
    let mut written = 0;
    while written < text.len() {
        let (_, rest) = text.split_at(written);
        match host.write(rest) {
            Ok(count) => written += count,
            Err(fault) => return Err(refused(Call::Write, fault)),
        }
    }
    Ok(())
}

/// What a call of writing that was refused means for the file.
fn refused(call: Call, fault: HostFault) -> FileFault
    ensures failed { IfRefused result (λ refused. (refused ≡ call) × (fault ≡ HostFault.Failed)) }
{
    match fault {
        HostFault::Failed => FileFault::Refused(call),
        HostFault::NoMemory => FileFault::NoMemory,
    }
}
