ghost use Rattle.std.specs.Prelude.{◌≡◌, ◌++◌, codes};
ghost use Rattle.std.specs.List.{flat_map};
ghost use Rattle.cov_host.specs.Outside.{KeepsFiles, KeepsInput, KeepsOutput};
ghost use Rattle.design_points.specs.cover_points.FaultText.{point_text};
ghost use Rattle.whole_files.specs.Effects.{CountsUp, WarnsLine};
ghost use Rattle.covered_cli.specs.PointsMessage.{points_line};

use cov_host::Host;
use design_points::PointFault;
use whole_files::warn_pieces;

/// Warns of a fault of points by its line.
pub(crate) fn warn_points<H: Host>(host: &mut H, fault: &PointFault)
    ensures line { WarnsLine (points_line fault.now) (H.outside host.old) (H.outside host.new) }
    ensures printed { (H.outside host.new).printed ≡ (H.outside host.old).printed }
    ensures files { KeepsFiles (H.outside host.old) (H.outside host.new) }
    ensures input { KeepsInput (H.outside host.old) (H.outside host.new) }
    ensures output { KeepsOutput (H.outside host.old) (H.outside host.new) }
    ensures counts { CountsUp (H.outside host.old) (H.outside host.new) }
{
    match fault {
        PointFault::NoMemory => warn_pieces(host, &["covered: memory\n".as_bytes()]),
        _ => warn_pieces(host, &pieces_of(fault)),
    }
}

/// The pieces in order of the line of a fault that is not one of memory.
fn pieces_of(fault: &PointFault) -> [&[u8]; 4]
    ensures { flat_map (λ piece. piece.now) result ≡ codes "covered: source: " ++ point_text fault.now ++ codes "\n" }
{
    let [kind, name] = fault.pieces();
    ["covered: source: ".as_bytes(), kind, name, "\n".as_bytes()]
}
