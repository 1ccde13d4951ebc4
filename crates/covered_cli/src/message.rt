ghost use Rattle.std.specs.Prelude.{◌≡◌, ◌++◌, codes};
ghost use Rattle.std.specs.List.{flat_map};
ghost use Rattle.command_line.specs.UsageFault.{usage_text};
ghost use Rattle.cov_host.specs.Outside.{KeepsFiles, KeepsInput, KeepsOutput};
ghost use Rattle.whole_files.specs.Effects.{CountsUp, WarnsLine};
ghost use Rattle.covered_cli.specs.Fault.{IsPlain, line_of};
ghost use Rattle.covered_cli.specs.PointsMessage.{machine_line};

use crate::fault::Fault;
use crate::points_message::warn_points;
use command_line::UsageFault;
use cov_host::Host;
use whole_files::{warn_file, warn_texts};

/// Warns of a fault by its line, piece by piece and without memory. Where the host refuses a piece, the pieces
/// after it are left out.
pub(crate) fn warn_of<H: Host>(host: &mut H, fault: &Fault<'_>)
    ensures line { WarnsLine (line_of fault.now) (H.outside host.old) (H.outside host.new) }
    ensures printed { (H.outside host.new).printed ≡ (H.outside host.old).printed }
    ensures files { KeepsFiles (H.outside host.old) (H.outside host.new) }
    ensures input { KeepsInput (H.outside host.old) (H.outside host.new) }
    ensures output { KeepsOutput (H.outside host.old) (H.outside host.new) }
    ensures counts { CountsUp (H.outside host.old) (H.outside host.new) }
{
    match fault {
        Fault::Source(fault) => fault.warn(host),
        Fault::Dump(refusal) => refusal.warn(host),
        Fault::Contradiction(found) => found.warn(host),
        Fault::Databases(fault) => fault.warn(host),
        Fault::Points(fault) => warn_points(host, fault),
        Fault::Selfrun(fault) => fault.warn(host),
        Fault::Files { call, file } => warn_file(host, call.name(), file.as_bytes()),
        Fault::Usage(_) | Fault::NoMachine { .. } | Fault::Memory => {
            warn_texts(host, &pieces_of(fault))
        }
    }
}

/// The pieces of a fault's line in order, except one of sources, of points, of a dump or its contradiction, of a file, of a command over databases, or of a selfrun.
fn pieces_of<'a>(fault: &Fault<'a>) -> [&'a str; 5]
    ensures { IsPlain fault.now → flat_map (λ piece. piece.now) result ≡ line_of fault.now }
{
    match fault {
        Fault::Usage(usage) => usage_pieces(usage),
        Fault::Source(_)
        | Fault::Points(_)
        | Fault::Dump(_)
        | Fault::Contradiction(_)
        | Fault::Files { .. }
        | Fault::Databases(_)
        | Fault::Selfrun(_) => ["", "", "", "", ""],
        Fault::NoMachine { name } => machine_pieces(name),
        Fault::Memory => ["covered: memory\n", "", "", "", ""],
    }
}

/// The pieces of the line of a usage fault in order.
fn usage_pieces<'a>(usage: &UsageFault<'a>) -> [&'a str; 5]
    ensures { flat_map (λ piece. piece.now) result ≡ codes "covered: usage: " ++ usage_text usage.now ++ codes "\n" }
{
    let [before, word, after] = usage.pieces();
    ["covered: usage: ", before, word, after, "\n"]
}

/// The pieces of the line of a machine that is not drawn in order.
fn machine_pieces<'a>(name: &'a str) -> [&'a str; 5]
    ensures { flat_map (λ piece. piece.now) result ≡ machine_line name.now }
{
    ["covered: source: points 5 NoMachine ", name, "\n", "", ""]
}
