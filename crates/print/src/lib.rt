// Text to standard output: words, numbers in decimal, bytes in hexadecimal; bytes from standard input; and a word on standard error where a write or a read failed.
#![tactic(auto)]

ghost use Rattle.std.specs.Prelude.{◌≤◌, length};

use std::io::{Read, Stderr, Stdin, Stdout, Write};

// The standard streams, and whether it was said that one failed, so that it is said once and not for every word that follows.
#[derive(Clone, Copy)]
pub struct Streams {
    input: Stdin,
    output: Stdout,
    errors: Stderr,
    told: bool,
}

impl Streams {
    // The streams of a program, none of which has failed.
    pub fn new(rt: &HostRuntime) -> Streams {
        Streams {
            input: rt.stdin(),
            output: rt.stdout(),
            errors: rt.stderr(),
            told: false,
        }
    }
}

// Says on standard error what failed, unless something was said before.
fn tell(to: &mut Streams, what: &[u8]) {
    if to.told {
        return;
    }
    to.told = true;
    let _ = to.errors.write_all(what);
}

// Writes bytes as they are, and says so where that fails.
pub fn word(to: &mut Streams, w: &[u8]) {
    if to.output.write_all(w).is_err() {
        tell(to, b"standard output: a write failed\n");
    }
}

// Reads into the lent bytes once, and answers how many came: none where the input has ended or a read failed.
fn read_some(from: &mut Streams, out: &mut [u8]) -> usize
    ensures { result ≤ length out.new }
{
    match from.input.read(out) {
        Ok(n) => n,
        Err(_) => 0,
    }
}

// Reads until the lent bytes are full, the input ends or a read fails, and answers how many came.
pub fn fill(from: &mut Streams, out: &mut [u8]) -> usize
    ensures { result ≤ length out.new }
{
    let mut done = 0;
    // A read takes as many bytes as the stream has, so what came is counted, and no range gives the steps.
    while done < out.len() {
        let n = read_some(from, &mut out[done..]);
        if n == 0 {
            break;
        }
        done += n;
    }
    done
}

// Whether standard input is at its end; where it is not, a read of it failed before, and that is said.
pub fn input_ended(from: &mut Streams) -> bool {
    let mut more = [0u8; 1];
    if let Ok(0) = from.input.read(&mut more) {
        return true;
    }
    tell(from, b"standard input: a read failed\n");
    false
}

// Writes a space.
pub fn space(to: &mut Streams) {
    word(to, b" ");
}

// Ends a line.
pub fn line_feed(to: &mut Streams) {
    word(to, b"\n");
}

// Writes a number in decimal.
pub fn number(to: &mut Streams, n: u64) {
    // These digits are the definition's, which std's formatting does not cite.
    let mut text = [0u8; 20];
    let k = digits::decimal(n, &mut text);
    word(to, &text[..k]);
}

// Writes a value in decimal, with its minus sign.
pub fn signed(to: &mut Streams, a: i16) {
    let mut text = [0u8; 20];
    let k = digits::signed(numbers::widened(a), &mut text);
    word(to, &text[..k]);
}

// Writes at most 65,536 bytes in hexadecimal.
pub fn hexadecimal(to: &mut Streams, list: &[u8])
    requires { length list.now ≤ 65536 }
{
    let mut text = [0u8; 131072];
    digits::hexadecimal(list, &mut text);
    let k = 2 * list.len();
    word(to, &text[..k]);
}
