ghost use Rattle.std.specs.Prelude.{◌≡◌, ◌++◌, codes, false, IfOk, OnOk, OnErr, IfErr, IsTrue, string_bytes};
ghost use Rattle.std.specs.Option.{option_copied};
ghost use Rattle.verilog_lexer.specs.Piece.{is_file_name};
ghost use Rattle.whole_files.specs.Effects.{OnlyReads};
ghost use Rattle.source_files.specs.Files.{path_of};
ghost use Rattle.source_files.specs.Joining.{IsJoinFault, Joins};

use crate::fault::JoinFault;
use crate::join::join;
use cov_host::{Host, NoMemory};
use std::alloc::Global;
use verilog_lexer::Sources;

/// The path of an included file: its name, after the folder and a slash where there is a folder.
pub fn include_path(alloc: Global, folder: Option<&str>, name: &[u8]) -> Result<String, NoMemory>
    requires { IsTrue (is_file_name name.now) }
    ensures { IfOk result (λ path. string_bytes path ≡ path_of (option_copied folder.entry) name.now) }
{
    let mut path = String::new(alloc);
    if let Some(folder) = folder {
        path.push_str(folder)?;
        path.push('/')?;
    }
    path.push_str(text_of(name))?;
    Ok(path)
}

/// Reads an included file by its path, and adds it to the sources by its name. After a refusal the sources are as
/// before.
pub fn join_include<H: Host>(
    alloc: Global,
    host: &mut H,
    path: &str,
    name: &[u8],
    sources: &mut Sources,
) -> Result<(), JoinFault>
    requires { IsTrue (is_file_name name.now) }
    ensures joined { OnOk result (Joins (H.outside host.old) path.now name.now false sources.old sources.new) }
    ensures kept { OnErr result (sources.new ≡ sources.old) }
    ensures fault { IfErr result (IsJoinFault (H.outside host.old) (H.outside host.new) path.now name.now sources.old) }
    ensures effects { OnlyReads (H.outside host.old) (H.outside host.new) }
{
    join(alloc, host, path, text_of(name), false, sources)
}

/// The name of an included file as a text. Its bytes are from 32 to 126.
fn text_of(name: &[u8]) -> &str
    requires { IsTrue (is_file_name name.now) }
    ensures { result.now ≡ name.now }
{
    unsafe { std::str::from_utf8_unchecked(name) }
}
