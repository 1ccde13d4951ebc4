ghost use Rattle.std.specs.Prelude.{◌≡◌, IfErr, IfOk, OnErr, OnOk, Some};
ghost use Rattle.command_line.specs.PointAddresses.{addresses_of};
ghost use Rattle.command_line.specs.PointWords.{point_values};
ghost use Rattle.cov_host.specs.Outside.{KeepsFiles, KeepsStreams, Told};
ghost use Rattle.whole_files.specs.Effects.{CountsUp, OnlyReads};
ghost use Rattle.database_commands.specs.Complete.{NoFaults};
ghost use Rattle.database_commands.specs.Excluding.{ChangeRefuses, Changes, ChangesAll, IsChangeFault, IsChangeOf, IsChangedIn, IsChangedText, IsGoodChange, IsPointsFault};
ghost use Rattle.database_commands.specs.Faults.{IsEarly};
ghost use Rattle.database_commands.specs.Files.{KeepsOthers};
ghost use Rattle.database_commands.specs.Reporting.{LeavesFront};

use crate::exclusion::read_exclusion;
use crate::files::write;
use crate::{Change, CommandFault};
use command_line::{PointAddresses, PointWords};
use cov_host::{Host, NoMemory};
use db_tools::{Excluded, ToolFault, write_excluded};
use std::alloc::Global;

/// Takes the points of an `exclude` command out of the totals of the database, and writes it so. The file is read
/// first, then the addresses are taken in the order of the words, and the first that is refused ends the work. The
/// output is opened when the text is made.
pub fn run_exclude<'a, H: Host>(
    alloc: Global,
    words: &PointWords<'a>,
    host: &mut H,
) -> Result<(), CommandFault<'a>>
    ensures done { OnOk result (IsChangedIn Change.Exclude (point_values words.now) (H.outside host.old) (H.outside host.new)) }
    ensures fault { IfErr result (IsPointsFault Change.Exclude (point_values words.now) (H.outside host.old) (H.outside host.new)) }
    ensures complete { IfErr result (λ fault. IsGoodChange Change.Exclude (point_values words.now) (H.outside host.old) → NoFaults (H.outside host.old) (H.outside host.new) → fault ≡ CommandFault.Memory) }
    ensures early { IfErr result (λ fault. IsEarly fault → KeepsFiles (H.outside host.old) (H.outside host.new)) }
    ensures left { OnErr result (LeavesFront (IsChangedText Change.Exclude (point_values words.now) (H.outside host.old)) (Some words.now.output.now) (H.outside host.old) (H.outside host.new)) }
    ensures others { Told (KeepsOthers words.now.output.now) (H.outside host.old).files (H.outside host.new).files }
    ensures streams { KeepsStreams (H.outside host.old) (H.outside host.new) }
    ensures counts { CountsUp (H.outside host.old) (H.outside host.new) }
{
    run_points(alloc, words, Change::Exclude, host)
}

/// Takes the points of a `restore` command back into the totals of the database, as `run_exclude` takes them out.
pub fn run_restore<'a, H: Host>(
    alloc: Global,
    words: &PointWords<'a>,
    host: &mut H,
) -> Result<(), CommandFault<'a>>
    ensures done { OnOk result (IsChangedIn Change.Restore (point_values words.now) (H.outside host.old) (H.outside host.new)) }
    ensures fault { IfErr result (IsPointsFault Change.Restore (point_values words.now) (H.outside host.old) (H.outside host.new)) }
    ensures complete { IfErr result (λ fault. IsGoodChange Change.Restore (point_values words.now) (H.outside host.old) → NoFaults (H.outside host.old) (H.outside host.new) → fault ≡ CommandFault.Memory) }
    ensures early { IfErr result (λ fault. IsEarly fault → KeepsFiles (H.outside host.old) (H.outside host.new)) }
    ensures left { OnErr result (LeavesFront (IsChangedText Change.Restore (point_values words.now) (H.outside host.old)) (Some words.now.output.now) (H.outside host.old) (H.outside host.new)) }
    ensures others { Told (KeepsOthers words.now.output.now) (H.outside host.old).files (H.outside host.new).files }
    ensures streams { KeepsStreams (H.outside host.old) (H.outside host.new) }
    ensures counts { CountsUp (H.outside host.old) (H.outside host.new) }
{
    run_points(alloc, words, Change::Restore, host)
}

/// Changes the points of the words in the database, and writes it so.
fn run_points<'a, H: Host>(
    alloc: Global,
    words: &PointWords<'a>,
    change: Change,
    host: &mut H,
) -> Result<(), CommandFault<'a>>
    ensures done { OnOk result (IsChangedIn change (point_values words.now) (H.outside host.old) (H.outside host.new)) }
    ensures fault { IfErr result (IsPointsFault change (point_values words.now) (H.outside host.old) (H.outside host.new)) }
    ensures complete { IfErr result (λ fault. IsGoodChange change (point_values words.now) (H.outside host.old) → NoFaults (H.outside host.old) (H.outside host.new) → fault ≡ CommandFault.Memory) }
    ensures early { IfErr result (λ fault. IsEarly fault → KeepsFiles (H.outside host.old) (H.outside host.new)) }
    ensures left { OnErr result (LeavesFront (IsChangedText change (point_values words.now) (H.outside host.old)) (Some words.now.output.now) (H.outside host.old) (H.outside host.new)) }
    ensures others { Told (KeepsOthers words.now.output.now) (H.outside host.old).files (H.outside host.new).files }
    ensures streams { KeepsStreams (H.outside host.old) (H.outside host.new) }
    ensures counts { CountsUp (H.outside host.old) (H.outside host.new) }
{
    let excluded = change_points(alloc, words, change, host)?;
    match write_excluded(alloc, &excluded) {
        Ok(text) => write(host, words.output, &text),
        Err(NoMemory) => Err(CommandFault::Memory),
    }
}

/// The table of the file with the points of the words changed.
fn change_points<'a, H: Host>(
    alloc: Global,
    words: &PointWords<'a>,
    change: Change,
    host: &mut H,
) -> Result<Excluded, CommandFault<'a>>
    ensures changed { IfOk result (IsChangeOf change (point_values words.now) (H.outside host.old)) }
    ensures fault { IfErr result (IsPointsFault change (point_values words.now) (H.outside host.old) (H.outside host.new)) }
    ensures effects { OnlyReads (H.outside host.old) (H.outside host.new) }
{
    let mut excluded = read_exclusion(alloc, host, words.file)?;
    change_all(&mut excluded, change, words.addresses, words.file)?;
    Ok(excluded)
}

/// Changes the points with these addresses, one after another.
fn change_all<'a>(
    excluded: &mut Excluded,
    change: Change,
    addresses: PointAddresses<'a>,
    file: &'a str,
) -> Result<(), CommandFault<'a>>
    ensures changed { OnOk result (ChangesAll change (addresses_of addresses.entry) excluded.old excluded.new) }
    ensures fault { IfErr result (IsChangeFault change file.now (addresses_of addresses.entry) excluded.old) }
{
    let mut addresses = addresses;
    while let Some(address) = addresses.next_address() {
        if let Err(fault) = change_point(excluded, change, address) {
            return Err(CommandFault::Point {
                file,
                fault,
                address,
            });
        }
    }
    Ok(())
}

/// Changes the point with this address.
fn change_point(excluded: &mut Excluded, change: Change, address: &str) -> Result<(), ToolFault>
    ensures changed { OnOk result (Changes change address.now excluded.old excluded.new) }
    ensures refused { IfErr result (ChangeRefuses change address.now excluded.old) }
{
    match change {
        Change::Exclude => excluded.exclude(address),
        Change::Restore => excluded.restore(address),
    }
}
