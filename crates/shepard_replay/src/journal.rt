// The journal, read from standard input: bytes, numbers, and what is passed over. Numbers are high byte first.
ghost use Rattle.std.specs.Prelude.{◌<◌, ◌≤◌};

use print::Streams;

// Reads until `out` is full. Where fewer bytes came, the input has ended or a read failed.
pub fn fill(io: &mut Streams, out: &mut [u8]) -> Option<()> {
    if print::fill(io, out) == out.len() {
        return Some(());
    }
    print::input_ended(io);
    None
}

// The bytes of a call's arguments.
#[derive(Clone, Copy)]
pub struct Arguments {
    bytes: [u8; 16],
}

// Reads `count` bytes, if so many come.
pub fn read(io: &mut Streams, count: usize) -> Option<Arguments>
    requires { count ≤ 16 }
{
    let mut bytes = [0u8; 16];
    fill(io, &mut bytes[..count])?;
    Some(Arguments { bytes })
}

impl Arguments {
    pub fn first(self) -> u8 {
        self.bytes[0]
    }

    // The number in the two bytes at i.
    pub fn word(self, i: usize) -> u16
        requires { i < 15 }
    {
        u16::from_be_bytes([self.bytes[i], self.bytes[i + 1]])
    }

    // The number in the four bytes at i.
    pub fn long(self, i: usize) -> u32
        requires { i < 13 }
    {
        let b = self.bytes;
        u32::from_be_bytes([b[i], b[i + 1], b[i + 2], b[i + 3]])
    }

    // The number in the four bytes at i, in two's complement.
    pub fn signed(self, i: usize) -> i32
        requires { i < 13 }
    {
        self.long(i).cast_signed()
    }
}

// Passes over at most 65,536 bytes, if n come.
fn skip_some(io: &mut Streams, n: usize) -> Option<()>
    requires { n ≤ 65536 }
{
    let mut bytes = [0u8; 65536];
    fill(io, &mut bytes[..n])
}

// Passes over n bytes, if so many come.
pub fn skip(io: &mut Streams, n: usize) -> Option<()> {
    for _ in 0..n / 65536 {
        skip_some(io, 65536)?;
    }
    skip_some(io, n % 65536)
}
