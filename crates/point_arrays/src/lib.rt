// Points held as an array of x, one of y, one of z and a count, and how such arrays are read, whatever they hold.
#![tactic(auto)]

ghost use Rattle.std.specs.Prelude.{◌≡◌, ◌%◌, ◌<◌, min};

// A coordinate as it is read: modulo 4,096.
pub fn coordinate(v: u16) -> u16
    ensures { result ≡ v % 4096 }
{
    v % 4096
}

// A count as it is read: at most 256.
pub fn clamped(n: usize) -> usize
    ensures { result ≡ min n 256 }
{
    n.min(256)
}
