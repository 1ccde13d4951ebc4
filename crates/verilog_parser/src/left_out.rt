//! The forms that the language leaves out, by the tokens that begin them.

ghost use Rattle.std.specs.Prelude.{◌≡◌, option_copied};
ghost use Rattle.verilog_parser.specs.LeftOut.{form_of, gate_or_net};

use verilog_grammar::Kind;

/// The form that a token begins with which no rule goes on, if it is in the table.
pub(crate) fn form_of(kind: Kind) -> Option<&'static str>
    ensures { option_copied result ≡ form_of kind }
{
    match kind {
        Kind::Hash => Some("delay"),
        Kind::At => Some("event-control"),
        Kind::Event | Kind::Arrow => Some("event"),
        Kind::Wait => Some("wait"),
        Kind::Fork | Kind::Join => Some("fork"),
        Kind::Force | Kind::Release => Some("force"),
        Kind::Assign | Kind::Deassign => Some("procedural-assign"),
        Kind::Disable => Some("disable"),
        Kind::While | Kind::Repeat | Kind::Forever => Some("loop"),
        Kind::TaskWord | Kind::Endtask => Some("task"),
        Kind::Function | Kind::Endfunction => Some("function"),
        Kind::Generate | Kind::Endgenerate | Kind::Genvar => Some("generate"),
        Kind::Defparam => Some("defparam"),
        Kind::Primitive | Kind::Endprimitive => Some("primitive"),
        Kind::Specify | Kind::Endspecify => Some("specify"),
        Kind::Inout => Some("inout"),
        Kind::Real | Kind::Realtime | Kind::Time => Some("real"),
        Kind::StarStar => Some("power"),
        Kind::LessOrEqual => Some("nonblocking"),
        Kind::Dot => Some("hierarchical-name"),
        Kind::Quoted => Some("string"),
        Kind::SignedCast
        | Kind::UnsignedCast
        | Kind::Task
        | Kind::InitialTask
        | Kind::OtherSystem => Some("system-call"),
        _ => gate_or_net(kind),
    }
}

/// The gates and the types of nets.
fn gate_or_net(kind: Kind) -> Option<&'static str>
    ensures { option_copied result ≡ gate_or_net kind }
{
    match kind {
        Kind::AndWord
        | Kind::OrWord
        | Kind::Nand
        | Kind::Nor
        | Kind::XorWord
        | Kind::Xnor
        | Kind::Buf
        | Kind::NotWord
        | Kind::Bufif0
        | Kind::Bufif1
        | Kind::Notif0
        | Kind::Notif1 => Some("gate"),
        Kind::Tri
        | Kind::Tri0
        | Kind::Tri1
        | Kind::Triand
        | Kind::Trior
        | Kind::Trireg
        | Kind::Wand
        | Kind::Wor
        | Kind::Supply0
        | Kind::Supply1 => Some("net-type"),
        _ => None,
    }
}
