//! Reading and writing where a signal interrupts.
ghost use Rattle.std.specs.Prelude.{◌≤◌, IfOk};

use file_host::{read_some, write_some};
use std::io;
use std::io::{ErrorKind, Read, Write};

/// A file that gives these answers, one a call, and then refuses.
#[derive(Drop)]
struct Answering<'a>(&'a [Answer]);

/// A count, or the kind of a refusal.
type Answer = Result<usize, ErrorKind>;

impl Answering<'_> {
    fn answer(&mut self, length: usize) -> io::Result<usize>
        ensures { IfOk result (λ count. count ≤ length) }
    {
        let Some((first, others)) = self.0.split_first() else {
            return Err(io::Error::from(ErrorKind::Other));
        };
        self.0 = others;
        match first {
            Ok(count) => Ok(length.min(*count)),
            Err(kind) => Err(io::Error::from(*kind)),
        }
    }
}

impl Read for Answering<'_> {
    fn read(&mut self, piece: &mut [u8]) -> io::Result<usize> {
        self.answer(piece.len())
    }
}

impl Write for Answering<'_> {
    fn write(&mut self, piece: &[u8]) -> io::Result<usize> {
        self.answer(piece.len())
    }

    fn flush(&mut self) -> io::Result<()> {
        Ok(())
    }
}

/// What two calls answer, and what reading and writing do then.
struct Interrupted {
    answers: [Answer; 2],
    read: Answer,
    written: Answer,
}

#[rattlefmt::skip]
const INTERRUPTED: [Interrupted; 4] = [
    Interrupted { answers: [Err(ErrorKind::Interrupted), Ok(2)], read: Ok(2), written: Ok(2) },
    Interrupted { answers: [Err(ErrorKind::Interrupted), Ok(0)], read: Ok(0), written: Err(ErrorKind::WriteZero) },
    Interrupted { answers: [Err(ErrorKind::Interrupted), Err(ErrorKind::Interrupted)], read: Err(ErrorKind::Other), written: Err(ErrorKind::Other) },
    Interrupted { answers: [Err(ErrorKind::BrokenPipe), Ok(1)], read: Err(ErrorKind::BrokenPipe), written: Err(ErrorKind::BrokenPipe) },
];

/// Whether the answer is this one.
fn is_answer(answer: io::Result<usize>, wanted: &Answer) -> bool {
    match (answer, wanted) {
        (Ok(count), Ok(wanted)) => count == *wanted,
        (Err(error), Err(kind)) => error.kind() == *kind,
        _ => false,
    }
}

fn reads(case: &Interrupted) -> bool {
    let mut piece = [0; 4];
    is_answer(
        read_some(&mut Answering(&case.answers), &mut piece),
        &case.read,
    )
}

fn writes(case: &Interrupted) -> bool {
    is_answer(
        write_some(&mut Answering(&case.answers), b"abcd"),
        &case.written,
    )
}

#[test]
fn an_interrupted_call_is_tried_again(rt: HostRuntime) {
    for case in &INTERRUPTED {
        assert!(rt; reads(case) && writes(case));
    }
}
