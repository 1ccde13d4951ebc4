//! A dump that is read in pieces.
use std::alloc::Global;
use vcd_reader::{Body, DumpFault, Fed, Header, Item, Saying, Step, Vars};

/// How long the pieces are; the last one is the whole text.
pub(crate) const SIZES: &[usize] = &[1, 7, 65_536, usize::MAX];

/// The next piece of a text, which is empty at its end.
pub(crate) fn piece(text: &[u8], at: usize, size: usize) -> &[u8] {
    let (_, rest) = text.split_at(at.min(text.len()));
    let (piece, _) = rest.split_at(size.min(rest.len()));
    piece
}

/// A dump of which the header was read, and how many bytes that took.
#[derive(Drop)]
pub(crate) struct Opened {
    pub(crate) vars: Vars,
    pub(crate) body: Body,
    pub(crate) at: usize,
}

/// Feeds the header of a text in pieces until it ends, and says where the body begins.
fn feed(header: &mut Header, text: &[u8], size: usize) -> Result<usize, DumpFault> {
    let mut at = 0usize;
    for _ in 0..=text.len() {
        let piece = piece(text, at, size);
        match header.feed(piece)? {
            Fed::More => at = at.saturating_add(piece.len()),
            Fed::Done { used } => return Ok(at.saturating_add(used)),
        }
    }
    Ok(at)
}

/// Reads the header of a text in pieces.
pub(crate) fn open(alloc: Global, text: &[u8], size: usize) -> Result<Opened, DumpFault> {
    let mut header = Header::new(alloc);
    let at = feed(&mut header, text, size)?;
    let (vars, body) = header.split();
    Ok(Opened { vars, body, at })
}

/// What a body says next of all codes, or of those that are wanted.
pub(crate) fn next(
    body: &mut Body,
    piece: &[u8],
    wanted: Option<&[bool]>,
) -> Result<Step, DumpFault> {
    match wanted {
        None => body.next(piece),
        Some(wanted) => next_of(body, piece, wanted),
    }
}

/// What a body says next of the codes that are wanted.
fn next_of(body: &mut Body, piece: &[u8], wanted: &[bool]) -> Result<Step, DumpFault> {
    let heard = body.next_of(piece, wanted)?;
    let item = match heard.saying {
        Saying::Time(time) => Item::Time(time),
        Saying::Change(code) => Item::Value {
            code,
            value: *body.value(),
        },
        Saying::Off => Item::Off,
        Saying::On(time) => Item::On(time),
        Saying::More => Item::More,
        Saying::End => Item::End,
    };
    Ok(Step {
        item,
        used: heard.used,
    })
}
