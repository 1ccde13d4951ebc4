//! Calls on each host, made one after the other.
ghost use Rattle.std.specs.Prelude.{◌≡◌, true};

use cov_host::{Calls, Host, HostFault, NoMemory, OpenFault};
use file_host::FileHost;
use memory_hosts::{MemoryHost, SureHost};
use std::alloc::Global;
use std::fs;

/// Opens a file and reads from it, and says which call is the first that is refused, 0 for none.
fn refused_input<H: Host>(host: &mut H) -> u64 {
    if host.open_read("in").is_err() {
        return 1;
    }
    let mut piece = [0; 4];
    if host.read(&mut piece).is_err() { 2 } else { 0 }
}

/// Writes a file, and says the same of these calls, which come after.
fn refused_output<H: Host>(host: &mut H) -> u64 {
    if host.open_write("out").is_err() {
        return 3;
    }
    if host.write(b"xy").is_err() {
        return 4;
    }
    if host.close_write().is_err() { 5 } else { 0 }
}

/// Prints and warns, and says the same.
fn refused_words<H: Host>(host: &mut H) -> u64 {
    if host.print(b"p").is_err() {
        return 6;
    }
    if host.warn(b"w").is_err() { 7 } else { 0 }
}

/// Makes each call once, in the order of its number, and says which is the first that is refused.
fn first_refused<H: Host>(host: &mut H) -> u64 {
    let input = refused_input(host);
    if input != 0 {
        return input;
    }
    let output = refused_output(host);
    if output != 0 {
        return output;
    }
    refused_words(host)
}

/// The call that fails, and what was written, printed and warned before it.
struct Planned {
    number: u64,
    out: Option<&'static str>,
    printed: &'static str,
    warned: &'static str,
}

#[rattlefmt::skip]
const PLANNED: [Planned; 8] = [
    Planned { number: 1, out: None, printed: "", warned: "" },
    Planned { number: 2, out: None, printed: "", warned: "" },
    Planned { number: 3, out: None, printed: "", warned: "" },
    Planned { number: 4, out: Some(""), printed: "", warned: "" },
    Planned { number: 5, out: Some("xy"), printed: "", warned: "" },
    Planned { number: 6, out: Some("xy"), printed: "", warned: "" },
    Planned { number: 7, out: Some("xy"), printed: "p", warned: "" },
    Planned { number: 0, out: Some("xy"), printed: "p", warned: "w" },
];

/// A host with a file, which refuses the call of this number.
fn failing_host(alloc: Global, number: u64) -> Result<MemoryHost, NoMemory> {
    let mut failing = Calls::new(alloc);
    failing.push(number)?;
    let mut host = MemoryHost::new(alloc, failing)?;
    host.put("in", b"ab")?;
    Ok(host)
}

/// Whether the bytes are this text, or missing where there is no text.
fn is_text(bytes: Option<&[u8]>, text: Option<&str>) -> bool {
    match (bytes, text) {
        (Some(bytes), Some(text)) => bytes == text.as_bytes(),
        (None, None) => true,
        _ => false,
    }
}

/// Whether a host is left as the case says.
fn is_left(host: &MemoryHost, case: &Planned) -> bool {
    is_text(host.file("out"), case.out)
        && host.printed() == case.printed.as_bytes()
        && host.warned() == case.warned.as_bytes()
}

/// Whether the call that was planned to fail does, and no other.
fn fails_as_planned(alloc: Global, case: &Planned) -> bool {
    match failing_host(alloc, case.number) {
        Ok(mut host) => first_refused(&mut host) == case.number && is_left(&host, case),
        Err(_) => false,
    }
}

#[test]
fn a_planned_call_fails(rt: HostRuntime) {
    for case in &PLANNED {
        assert!(rt; fails_as_planned(rt.alloc(), case));
    }
}

/// Whether the first of two calls fails and the second, which is the same, does not.
fn fails_once(alloc: Global) -> bool {
    let Ok(mut host) = failing_host(alloc, 1) else {
        return false;
    };
    host.print(b"q") == Err(HostFault::Failed)
        && host.print(b"q").is_ok()
        && host.printed() == b"q".as_slice()
}

#[test]
fn a_call_fails_once(rt: HostRuntime) {
    assert!(rt; fails_once(rt.alloc()));
}

/// A host with a file, which refuses no call.
fn sure_host(alloc: Global) -> Result<SureHost, NoMemory> {
    let mut host = SureHost::new(alloc)?;
    host.put("in", b"ab")?;
    Ok(host)
}

/// Whether every call is done.
fn does_all(host: &mut SureHost) -> bool {
    first_refused(host) == 0
        && is_text(host.file("out"), Some("xy"))
        && host.printed() == b"p".as_slice()
        && host.warned() == b"w".as_slice()
}

#[test]
fn a_sure_host_does_every_call(rt: HostRuntime) {
    assert!(rt;
        match sure_host(rt.alloc()) {
            Ok(mut host) => does_all(&mut host) && is_absent(&mut host, "absent"),
            Err(_) => false,
        }
    );
}

/// Whether there is no such file.
fn is_absent<H: Host>(host: &mut H, name: &str) -> bool {
    host.open_read(name) == Err(OpenFault::Absent)
}

/// The next byte of what is read, in a piece of four: how many came, and the first.
fn next_byte<H: Host>(host: &mut H) -> (usize, u8)
    requires { (H.outside host.old).reading ≡ true }
    ensures { (H.outside host.new).reading ≡ true }
{
    let mut piece = [0; 4];
    let count = host.read(&mut piece).unwrap_or(9);
    (count, piece[0])
}

/// Whether two bytes come one at a time.
fn reads_by_one<H: Host>(host: &mut H) -> bool {
    host.open_read("in").is_ok()
        && next_byte(host) == (1, b'a')
        && next_byte(host) == (1, b'b')
        && next_byte(host).0 == 0
}

/// Whether one byte of three is taken, and none of none.
fn writes_by_one<H: Host>(host: &mut H) -> bool {
    host.open_write("out").is_ok()
        && host.write(b"xyz") == Ok(1)
        && host.write(b"") == Ok(0)
        && host.close_write().is_ok()
}

/// Whether a host that moves one byte at a time does so.
fn moves_by_one(alloc: Global) -> bool {
    let Ok(mut host) = failing_host(alloc, 0) else {
        return false;
    };
    host.one_byte();
    reads_by_one(&mut host) && writes_by_one(&mut host) && is_text(host.file("out"), Some("x"))
}

#[test]
fn one_byte_moves_at_a_time(rt: HostRuntime) {
    assert!(rt; moves_by_one(rt.alloc()));
}

/// Writes a file in one piece.
fn writes<H: Host>(host: &mut H, name: &str, piece: &[u8]) -> bool {
    host.open_write(name).is_ok()
        && host.write(piece) == Ok(piece.len())
        && host.close_write().is_ok()
}

/// Whether the file is `ab`, read in one piece.
fn reads_two<H: Host>(host: &mut H, name: &str) -> bool {
    if host.open_read(name).is_err() {
        return false;
    }
    let mut piece = [0; 8];
    host.read(&mut piece) == Ok(2) && piece == *b"ab\0\0\0\0\0\0" && next_byte(host).0 == 0
}

#[test]
fn real_files_are_written_and_read(rt: HostRuntime) {
    let name = "host_tests.out";
    let mut host = FileHost::new(rt, rt.stderr(), rt.alloc());
    assert!(rt; writes(&mut host, name, b"xyz") && writes(&mut host, name, b"ab"));
    assert!(rt; reads_two(&mut host, name));
    assert!(rt; fs::remove_file(&rt, name).is_ok());
    assert!(rt; is_absent(&mut host, name));
}

/// Whether a folder is not read as a file, and no file is written into a folder that is absent.
fn refuses_folders<H: Host>(host: &mut H) -> bool {
    host.open_read(".") == Err(OpenFault::Failed)
        && host.open_write("absent/out") == Err(HostFault::Failed)
}

/// Whether what is no text is printed and warned.
fn says_bytes<H: Host>(host: &mut H) -> bool {
    host.print(b"printed \xff\n").is_ok()
        && host.warn("warned \u{e9}\n".as_bytes()).is_ok()
        && host.warn(b"\xff\n").is_ok()
}

#[test]
fn real_files_are_refused(rt: HostRuntime) {
    let mut host = FileHost::new(rt, rt.stderr(), rt.alloc());
    assert!(rt; refuses_folders(&mut host));
    assert!(rt; says_bytes(&mut host));
}
