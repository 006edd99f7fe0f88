// The points of a survey file's records, from bytes to arrays: refusals 14 and 15.
#![tactic(auto)]

ghost use Rattle.std.specs.Prelude.{◌≡◌, ◌*◌, ◌≤◌, length, IfOk};
ghost use Rattle.model.specs.SurveyFile.{points_of, fault};
ghost use Rattle.point_arrays.specs.PointArrays.{held};
ghost use Rattle.refusal.specs.Numbered.{code};
ghost use Rattle.read_points.specs.Rank.{fault_by};

use numbers::TwosComplement;
use refusal::Refusal;

// The points of the records, the first of the arrays' elements.
#[derive(Clone, Copy)]
pub struct Points {
    pub x: [u16; 256],
    pub y: [u16; 256],
    pub z: [i8; 256],
}

// 14 or 15 for a record at (x, y) whose rank, 4,096 x + y, is to be at least `least`.
fn record_fault(x: usize, y: usize, least: usize) -> Result<(), Refusal>
    ensures { code result ≡ fault_by least x y 0 }
{
    if 4096 <= x || 4096 <= y {
        return Err(Refusal::RecordOffDomain);
    }
    if 4096 * x + y < least {
        return Err(Refusal::RecordOrder);
    }
    Ok(())
}

// Reads the records, five bytes each, one after the other. `least` is one above the rank of the record before.
pub fn read(s: &[u8], count: usize) -> Result<Points, Refusal>
    requires { (length s.now ≡ 5 * count) × (count ≤ 256) }
    ensures refusal { code result ≡ fault (points_of s.now) }
    ensures points { IfOk result (λ r. held r.x r.y r.z count ≡ points_of s.now) }
{
    let mut r = Points {
        x: [0u16; 256],
        y: [0u16; 256],
        z: [0i8; 256],
    };
    let mut least = 0usize;
    for i in 0..count {
        let at = 5 * i;
        let x = numbers::word_at(s, at);
        let y = numbers::word_at(s, at + 2);
        record_fault(x, y, least)?;
        r.x[i] = x as u16;
        r.y[i] = y as u16;
        r.z[i] = i8::signed(s[at + 4]);
        least = 4096 * x + y + 1;
    }
    Ok(r)
}
