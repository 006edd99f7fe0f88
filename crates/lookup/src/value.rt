// Values: the least chosen one, and each less that.
ghost use Rattle.std.specs.Prelude.{◌≡◌, ℕ, ◌<◌, ◌≤◌, get_or};
ghost use Rattle.std.specs.Float.{nan};
ghost use Rattle.model.specs.Extent.{values_by, lesser};
ghost use Rattle.model.specs.Computed.{lessened_f};
ghost use Rattle.weights.specs.Seen.{points_held, item_at};

use floats::to_float;
use neighbours::Chosen;

// The least of the values held, 0 of none.
pub(crate) fn least_value(c: Chosen) -> i8
    requires { c.count ≤ 10 }
    ensures { result ≡ values_by lesser (points_held c) }
{
    if c.count == 0 {
        return 0;
    }
    let mut least = c.items[0].z;
    for a in &c.items[1..c.count] {
        least = least.min(a.z);
    }
    least
}

// The values held, each less the least one.
pub(crate) fn lessened(c: Chosen, least: i8) -> [f64; 10]
    requires { c.count ≤ 10 }
    ensures { (i : ℕ) → i < c.count → get_or result i nan ≡ lessened_f least (item_at c i).z }
{
    let mut xs = [0.0; 10];
    for i in 0..c.count {
        xs[i] = to_float(u64::from(c.items[i].z.abs_diff(least)));
    }
    xs
}
