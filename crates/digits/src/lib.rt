// Numbers in decimal and bytes in hexadecimal, as ASCII text at the front of lent bytes.
#![tactic(auto)]

ghost use Rattle.std.specs.Prelude.{◌≡◌, ◌*◌, ◌≤◌, ◌<◌, length};
ghost use Rattle.model.specs.Lists.{laid};
ghost use Rattle.model.specs.Decimal.{digits_of, places as places_of, decimal as decimal_of, signed_decimal};
ghost use Rattle.digits.specs.Line.{line_of};
ghost use Rattle.digits.specs.Hexadecimal.{hex_digit, hex_pair, hexadecimal as hexadecimal_of};

// How many decimal digits n has.
pub fn places(n: u64) -> usize
    ensures value { result ≡ places_of n }
    ensures upper_bound { result ≤ 20 }
{
    n.max(1).ilog10() as usize + 1
}

// Fills the lent bytes with the last decimal digits of n, and zeros before them.
pub fn spell(n: u64, out: &mut [u8])
    ensures { out.new ≡ digits_of (length out.old) n }
{
    let mut rest = n;
    for i in (0..out.len()).rev() {
        out[i] = b'0' + (rest % 10) as u8;
        rest /= 10;
    }
}

// Writes the digits of n, where as many bytes are lent, and answers how many they are.
pub fn put(n: u64, out: &mut [u8]) -> usize
    requires { places_of n ≤ length out.old }
    ensures value { result ≡ places_of n }
    ensures out_after { out.new ≡ laid (decimal_of n) out.old }
{
    let k = places(n);
    spell(n, &mut out[..k]);
    k
}

// Writes a number with no leading zero, and answers how many bytes it takes: at most the 20 that are asked for.
pub fn decimal(n: u64, out: &mut [u8]) -> usize
    requires { 20 ≤ length out.old }
    ensures value { result ≡ length (decimal_of n) }
    ensures upper_bound { result ≤ 20 }
    ensures out_after { out.new ≡ laid (decimal_of n) out.old }
{
    put(n, out)
}

// Writes a number with a minus sign where it is below zero, and answers how many bytes it takes: at most the 20 that are asked for.
pub fn signed(a: i64, out: &mut [u8]) -> usize
    requires { 20 ≤ length out.old }
    ensures value { result ≡ length (signed_decimal a) }
    ensures upper_bound { result ≤ 20 }
    ensures out_after { out.new ≡ laid (signed_decimal a) out.old }
{
    let n = numbers::absolute(a);
    if a < 0 {
        let k = put(n, &mut out[1..]);
        out[0] = b'-';
        return k + 1;
    }
    put(n, out)
}

// Writes a label, a number and a line feed, where as many bytes are lent, and answers how many they are.
pub fn line(label: &[u8], n: u64, out: &mut [u8]) -> usize
    requires { length (line_of label.now n) ≤ length out.old }
    ensures value { result ≡ length (line_of label.now n) }
    ensures out_after { out.new ≡ laid (line_of label.now n) out.old }
{
    let at = numbers::copy(label, out);
    let end = at + put(n, &mut out[at..]);
    out[end] = b'\n';
    end + 1
}

// A hexadecimal digit in lower case.
fn hex_digit(d: u8) -> u8
    requires { d < 16 }
    ensures { result ≡ hex_digit d }
{
    if d < 10 { b'0' + d } else { b'a' + (d - 10) }
}

// A byte as two hexadecimal digits.
fn hex_pair(b: u8) -> [u8; 2]
    ensures { result ≡ hex_pair b }
{
    [hex_digit(b / 16), hex_digit(b % 16)]
}

// Writes each byte of s as two hexadecimal digits in lower case: twice as many bytes as s has are asked for.
pub fn hexadecimal(s: &[u8], out: &mut [u8])
    requires { 2 * length s.now ≤ length out.old }
    ensures { out.new ≡ laid (hexadecimal_of s.now) out.old }
{
    for (i, b) in s.iter().enumerate() {
        numbers::copy(&hex_pair(*b), &mut out[2 * i..]);
    }
}
