// A lookup over lent arrays: its neighbours, the mean of their values by their weights, and the answer in 256ths of a step: document 01, "Pull and mean".
#![tactic(auto)]

mod value;

ghost use Rattle.std.specs.Prelude.{◌≡◌, ◌^◌, ◌≤◌, pos, ◌+ℤ◌, ◌*ℤ◌, ◌≤ℤ◌};
ghost use Rattle.model.specs.Point.{Location, State};
ghost use Rattle.model.specs.Computed.{mean_f};
ghost use Rattle.model.specs.Answer.{answer};
ghost use Rattle.weights.specs.Seen.{seen, Bounded};
ghost use Rattle.lookup.specs.Asked.{Handed, Asked};
ghost use Rattle.lookup.specs.AnswersAs.{AnswersAs};

use metric::Viewpoint;
use neighbours::Chosen;
use value::{least_value, lessened};

// The answer of a lookup, in 256ths of a step, and the neighbours that it goes by.
#[derive(Clone, Copy)]
pub struct Answered {
    pub answer: i16,
    pub chosen: Chosen,
}

// 512 times the mean of the values, each less the least one.
fn mean_of(c: Chosen, least: i8) -> f64
    requires { Bounded c }
    ensures { result ≡ mean_f (seen c) least }
{
    let w = weights::weights(c);
    let x = lessened(c, least);
    weighted_mean::scaled_mean(512, &w, &x, c.count)
}

// A value with k 256ths above it, in 256ths of a step.
fn above(value: i8, k: u64) -> i16
    requires { (k ≤ 2 ^ 21) × (((pos 256 *ℤ value) +ℤ pos k) ≤ℤ pos 32512) }
    ensures { result ≡ (pos 256 *ℤ value) +ℤ pos k }
{
    (256 * i32::from(value) + k as i32) as i16
}

// The answer: the value of a point at the location, or the mean.
fn answer_of(c: Chosen) -> i16
    requires { (s : State) × (p : Location) × Asked s p c }
    ensures { (s : State) (p : Location) → Asked s p c → result ≡ answer s p }
{
    let first = c.items[0];
    if first.distance == 0 {
        return above(first.z, 0);
    }
    let least = least_value(c);
    let k = floats::nearest_half(mean_of(c, least));
    above(least, k)
}

// The answer at a viewpoint of the points that the arrays hold, for their initial radius R0, and the neighbours that it goes by.
pub fn answer_at<'a>(
    xs: &'a [u16; 256],
    ys: &'a [u16; 256],
    zs: &'a [i8; 256],
    n: usize,
    v: Viewpoint,
    r0: u32,
) -> Answered
    requires { (s : State) × (p : Location) × Handed s p xs.now ys.now zs.now n v r0 }
    ensures { (s : State) (p : Location) → Handed s p xs.now ys.now zs.now n v r0 → AnswersAs s p result }
{
    let c = neighbours::choose(xs, ys, zs, n, v, r0);
    let a = answer_of(c);
    Answered {
        answer: a,
        chosen: c,
    }
}
