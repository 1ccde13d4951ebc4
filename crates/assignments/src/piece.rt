use scene_laws::Lvalue;

/// A part of an assignment, with its index evaluated.
#[derive(Clone, Copy)]
pub struct Piece {
    /// What it writes.
    pub to: Lvalue,
    /// Its number of bits.
    pub width: u8,
}
