// The trailer: the last twelve bytes of every survey file, checked on reading and made for writing.
#![tactic(auto)]

ghost use Rattle.std.specs.Prelude.{◌≡◌, ◌++◌, ◌+◌, ◌*◌, ◌≤◌, length, drop};
ghost use Rattle.model.specs.Bytes.{bytes2, bytes4, same};
ghost use Rattle.model.specs.SurveyFile.{magic, trailer_check};
ghost use Rattle.refusal.specs.Numbered.{code};

use refusal::Refusal;

// The magic: the last four of them.
const MAGIC: [u8; 4] = *b"RLS1";

// Whether the last four bytes, from i on, are the magic.
fn has_magic(s: &[u8], i: usize) -> bool
    requires { i + 4 ≡ length s.now }
    ensures { result ≡ same (drop i s.now) magic }
{
    numbers::same(&s[i..], &MAGIC)
}

// Refusals 9 to 13.
#[tactic(auto, unfolding(model::specs::SurveyFile::trailer_check))]
pub fn check(file: &[u8]) -> Result<(), Refusal>
    ensures { code result ≡ trailer_check file.now 0 }
{
    let len = file.len();
    if len < 12 || 65536 < len {
        return Err(Refusal::FileLength);
    }
    let end = len - 12;
    if !has_magic(file, end + 8) {
        return Err(Refusal::Magic);
    }
    let count = numbers::word_at(file, end);
    if 256 < count {
        return Err(Refusal::Count);
    }
    let back = numbers::long_at(file, end + 2);
    if back != 5 * count || end < back {
        return Err(Refusal::BackDistance);
    }
    let start = end - back;
    if numbers::total(&file[start..end]) % 65536 != numbers::word_at(file, end + 6) {
        return Err(Refusal::Sum);
    }
    Ok(())
}

// The trailer of n points whose record bytes have the sum `sum`.
pub fn of_records(n: usize, sum: usize) -> [u8; 12]
    requires { n ≤ 256 }
    ensures { result ≡ bytes2 n ++ bytes4 (5 * n) ++ bytes2 sum ++ magic }
{
    let mut t = [0; 12];
    t[..2].copy_from_slice(&(n as u16).to_be_bytes());
    t[2..6].copy_from_slice(&(5 * n as u32).to_be_bytes());
    t[6..8].copy_from_slice(&((sum % 65536) as u16).to_be_bytes());
    t[8..].copy_from_slice(&MAGIC);
    t
}
