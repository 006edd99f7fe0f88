// Whole numbers: words of bytes, high byte first, two's complement, bytes compared and summed up, differences and sizes, and the lesser and the greater of two values.
#![tactic(auto)]

mod twos_complement;

ghost use Rattle.std.specs.Prelude.{◌≡◌, ◌+◌, ◌^◌, ◌<◌, ◌≤◌, nat_abs, length};
ghost use Rattle.model.specs.Bytes.{word_at, long_at, same as same_as, total as total_of};
ghost use Rattle.model.specs.Distance.{gap as gap_of};
ghost use Rattle.model.specs.Lists.{laid as laid_of};
ghost use Rattle.model.specs.Extent.{lesser as lesser_of, greater as greater_of};

pub use twos_complement::TwosComplement;

// The number in the two bytes at i.
pub fn word_at(s: &[u8], i: usize) -> usize
    requires { i + 1 < length s.now }
    ensures value { result ≡ word_at s.now i }
    ensures upper_bound { result < 65536 }
{
    usize::from(u16::from_be_bytes([s[i], s[i + 1]]))
}

// The number in the four bytes at i.
pub fn long_at(s: &[u8], i: usize) -> usize
    requires { i + 3 < length s.now }
    ensures value { result ≡ long_at s.now i }
    ensures upper_bound { result < 2 ^ 32 }
{
    65536 * word_at(s, i) + word_at(s, i + 2)
}

// Whether two lists of as many bytes are the same.
pub fn same<'a>(s: &'a [u8], t: &'a [u8]) -> bool
    requires { length s.now ≡ length t.now }
    ensures { result ≡ same_as s.now t.now }
{
    s == t
}

// Writes bytes to the front of a list, and answers how many they are.
pub fn copy(from: &[u8], to: &mut [u8]) -> usize
    requires { length from.now ≤ length to.old }
    ensures count { result ≡ length from.now }
    ensures laid { to.new ≡ laid_of from.now to.old }
{
    let n = from.len();
    to[..n].copy_from_slice(from);
    n
}

// The sum of at most 1,280 bytes.
pub fn total(s: &[u8]) -> usize
    requires { length s.now ≤ 1280 }
    ensures { result ≡ total_of s.now }
{
    s.iter().map(|b| usize::from(*b)).sum()
}

// The difference of two numbers, whichever is the greater.
pub fn gap(m: u64, n: u64) -> u64
    ensures { result ≡ gap_of m n }
{
    m.abs_diff(n)
}

// The size of a number, whatever its sign.
pub fn absolute(v: i64) -> u64
    ensures { result ≡ nat_abs v }
{
    v.unsigned_abs()
}

// A number of 16 bits as one of 64.
pub fn widened(a: i16) -> i64
    ensures { result ≡ a }
{
    i64::from(a)
}

// The size of a number of 16 bits.
pub fn size(a: i16) -> u64
    ensures { (result ≡ nat_abs a) × (result ≤ 32768) }
{
    u64::from(a.unsigned_abs())
}

pub fn lesser(a: i8, b: i8) -> i8
    ensures { result ≡ lesser_of a b }
{
    a.min(b)
}

pub fn greater(a: i8, b: i8) -> i8
    ensures { result ≡ greater_of a b }
{
    a.max(b)
}
