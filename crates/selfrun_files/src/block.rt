ghost use Rattle.std.specs.Prelude.{◌≡◌, ◌+◌, ◌<◌, ◌≤◌, ◌++◌, ◌∷◌, [], drop, length};
ghost use Rattle.selfrun_files.specs.Text.{bit_digits, bit_line, time_line, vector_line};

use itoa::Buffer;
use std::marker::Model;

/// How many bytes a block has room for.
const ROOM: usize = 256;

/// Lines of a dump, at most 256 bytes. Contracts see the bytes.
#[derive(Drop)]
pub(crate) struct Block {
    bytes: [u8; ROOM],
    count: usize,
}

impl Model for Block {
    ghost use Rattle.std.specs.Prelude.{◌≤◌, ℕ, List, take};

    ghost Value = { List ℕ };

    ghost view = { λ block. take block.count block.bytes };

    ghost invariant = { λ block. block.count ≤ 256 };
}

impl Block {
    /// No bytes.
    pub(crate) fn new() -> Self
        ensures { result ≡ [] }
    {
        Block {
            bytes: [0; ROOM],
            count: 0,
        }
    }

    /// How many bytes there are.
    pub(crate) fn len(&self) -> usize
        ensures length { result ≡ length self.now }
        ensures room { result ≤ 256 }
    {
        self.count
    }

    /// The bytes from a place on.
    pub(crate) fn rest(&self, at: usize) -> &[u8]
        requires { at ≤ length self.now }
        ensures bytes { result.now ≡ drop at self.now }
        ensures length { at + length result.now ≡ length self.now }
        ensures room { length self.now ≤ 256 }
    {
        &self.bytes[at..self.count]
    }

    /// Lets all bytes go.
    pub(crate) fn clear(&mut self)
        ensures { self.new ≡ [] }
    {
        self.count = 0;
    }

    /// Adds a byte.
    fn push(&mut self, byte: u8)
        requires { length self.old < 256 }
        ensures { self.new ≡ self.old ++ byte ∷ [] }
    {
        self.bytes[self.count] = byte;
        self.count += 1;
    }

    /// Adds bytes.
    pub(crate) fn push_all(&mut self, bytes: &[u8])
        requires { length self.old + length bytes.now ≤ 256 }
        ensures bytes { self.new ≡ self.old ++ bytes.now }
        ensures length { length self.new ≡ length self.old + length bytes.now }
    {
        for byte in bytes {
            self.push(*byte);
        }
    }

    /// Adds the line of a time.
    pub(crate) fn push_time(&mut self, time: u32)
        requires { length self.old + 12 ≤ 256 }
        ensures line { self.new ≡ self.old ++ time_line time }
        ensures length { length self.new ≤ length self.old + 12 }
    {
        self.push(b'#');
        self.push_all(Buffer::new().format(time).as_bytes());
        self.push(b'\n');
    }

    /// Adds the line that gives the variable of a code one bit.
    pub(crate) fn push_bit(&mut self, code: u8, bit: bool)
        requires { length self.old + 3 ≤ 256 }
        ensures line { self.new ≡ self.old ++ bit_line code bit }
        ensures length { length self.new ≡ length self.old + 3 }
    {
        self.push(b'0' + u8::from(bit));
        self.push(code);
        self.push(b'\n');
    }

    /// Adds the line that gives the variable of a code the lowest bits of a value, this many.
    pub(crate) fn push_vector(&mut self, code: u8, width: u8, value: u8)
        requires width { width ≤ 8 }
        requires room { length self.old + width + 4 ≤ 256 }
        ensures line { self.new ≡ self.old ++ vector_line code width value }
        ensures length { length self.new ≡ length self.old + width + 4 }
    {
        self.push(b'b');
        self.push_digits(width, value);
        self.push(b' ');
        self.push(code);
        self.push(b'\n');
    }

    /// Adds the digits of the lowest bits of a value, this many, the highest first.
    fn push_digits(&mut self, width: u8, value: u8)
        requires width { width ≤ 8 }
        requires room { length self.old + width ≤ 256 }
        ensures digits { self.new ≡ self.old ++ bit_digits width value }
        ensures length { length self.new ≡ length self.old + width }
    {
        let mut left = width;
        while left > 0 {
            left -= 1;
            self.push(b'0' + (value >> left & 1));
        }
    }
}
