//! The files of a design, read through a host.
use cov_host::{Calls, NoMemory};
use memory_hosts::MemoryHost;
use source_files::{JoinFault, RootFault, include_path, join_include, read_roots};
use std::alloc::Global;
use verilog_lexer::{LexKind, Sources};
use whole_files::Call;

/// A host with two sources, and one in a folder that is included.
fn host_of(alloc: Global) -> Result<MemoryHost, NoMemory> {
    let mut host = MemoryHost::new(alloc, Calls::new(alloc))?;
    host.put("a.v", b"`include \"x.vh\"\n")?;
    host.put("b.v", b"")?;
    host.put("inc/x.vh", b"module m; endmodule\n")?;
    Ok(host)
}

/// Whether a file has this path under a folder.
fn has_path(alloc: Global, folder: Option<&str>, path: &str) -> bool {
    match include_path(alloc, folder, b"x.vh") {
        Ok(found) => found.as_str() == path,
        Err(_) => false,
    }
}

#[test]
fn paths_of_included_files(rt: HostRuntime) {
    assert!(rt; has_path(rt.alloc(), Some("inc"), "inc/x.vh"));
    assert!(rt; has_path(rt.alloc(), None, "x.vh"));
}

/// Adds the included file from a path, and says whether it was added.
fn adds(alloc: Global, host: &mut MemoryHost, path: &str, sources: &mut Sources) -> bool {
    join_include(alloc, host, path, b"x.vh", sources).is_ok()
}

/// Whether the file is not there.
fn is_absent(alloc: Global, host: &mut MemoryHost, path: &str, sources: &mut Sources) -> bool {
    match join_include(alloc, host, path, b"x.vh", sources) {
        Err(JoinFault::Refused(call)) => call == Call::OpenRead,
        _ => false,
    }
}

/// Whether the included file comes after the two sources, and only from its folder.
fn includes(alloc: Global, host: &mut MemoryHost, sources: &mut Sources) -> bool {
    sources.name(1) == Some("a.v")
        && sources.name(2) == Some("b.v")
        && sources.name(3).is_none()
        && adds(alloc, host, "inc/x.vh", sources)
        && sources.name(3) == Some("x.vh")
        && is_absent(alloc, host, "x.vh", sources)
}

/// The same of sources that are read.
fn reads_and_includes(alloc: Global, host: &mut MemoryHost) -> bool {
    match read_roots(alloc, host, &["a.v", "b.v"]) {
        Ok(mut sources) => includes(alloc, host, &mut sources),
        Err(_) => false,
    }
}

#[test]
fn files_and_an_included_one_are_read(rt: HostRuntime) {
    assert!(rt;
        match host_of(rt.alloc()) {
            Ok(mut host) => reads_and_includes(rt.alloc(), &mut host),
            Err(_) => false,
        }
    );
}

/// Whether the second file is not there.
fn is_second(found: RootFault<'_>) -> bool {
    found.file == "c.v"
        && match found.fault {
            JoinFault::Refused(call) => call == Call::OpenRead,
            _ => false,
        }
}

/// Whether there are more files than 256.
fn is_full(found: RootFault<'_>) -> bool {
    match found.fault {
        JoinFault::Full {
            kind,
            detail: Some(name),
        } => kind == LexKind::TooManySources && name.as_slice() == b"a.v".as_slice(),
        _ => false,
    }
}

/// The first fault of the sources with these names.
fn fault_of<'a>(alloc: Global, names: &[&'a str]) -> Option<RootFault<'a>> {
    let mut host = host_of(alloc).ok()?;
    match read_roots(alloc, &mut host, names) {
        Ok(_) => None,
        Err(found) => Some(found),
    }
}

#[test]
fn the_file_that_is_not_read_is_named(rt: HostRuntime) {
    let alloc = rt.alloc();
    assert!(rt; fault_of(alloc, &["a.v", "c.v", "d.v"]).is_some_and(is_second));
    assert!(rt; fault_of(alloc, &["a.v"; 257]).is_some_and(is_full));
}
