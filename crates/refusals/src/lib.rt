// Why a call on the points that arrays hold is refused: document 01, "The bench", and 8 of a lookup lent too few neighbour records. The first that applies.
#![tactic(auto)]

ghost use Rattle.std.specs.Prelude.{◌≡◌, List, min, ℤ, length};
ghost use Rattle.model.specs.Point.{State, in_domain, in_range};
ghost use Rattle.model.specs.Refusals.{on_domain, within_range, lookup_refusal, neighbours_refusal};
ghost use Rattle.refusal.specs.Numbered.{code};
ghost use Rattle.model.specs.Calls.{Add, Change, Drop, taken, refusal};
ghost use Rattle.point_arrays.specs.PointArrays.{points_in, HoldsPoints};

use refusal::Refusal;

fn is_in_domain(x: u32, y: u32) -> bool
    ensures { result ≡ in_domain x y }
{
    x < 4096 && y < 4096
}

fn is_in_range(z: i32) -> bool
    ensures { result ≡ in_range z }
{
    -128 <= z && z <= 127
}

// 1 or 2: of a location and a value, whatever the points are.
fn of_values(x: u32, y: u32, z: i32) -> Result<(), Refusal>
    ensures { code result ≡ on_domain x y (within_range z 0) }
{
    if !is_in_domain(x, y) {
        return Err(Refusal::OffDomain);
    }
    if !is_in_range(z) {
        return Err(Refusal::OutOfRange);
    }
    Ok(())
}

fn is_taken<'a>(xs: &'a [u16; 256], ys: &'a [u16; 256], n: usize, x: u32, y: u32) -> bool
    ensures { (zs : List ℤ) → result ≡ taken x y (points_in xs.now ys.now zs n) }
{
    locate::find(xs, ys, n, x, y) < point_arrays::clamped(n)
}

pub fn of_add<'a>(
    xs: &'a [u16; 256],
    ys: &'a [u16; 256],
    n: usize,
    x: u32,
    y: u32,
    z: i32,
) -> Result<(), Refusal>
    ensures { (s : State) (zs : List ℤ) → HoldsPoints s xs.now ys.now zs n → code result ≡ refusal (Add x y z) s.contents }
{
    of_values(x, y, z)?;
    if is_taken(xs, ys, n, x, y) {
        return Err(Refusal::Taken);
    }
    if 256 <= n {
        return Err(Refusal::Full);
    }
    Ok(())
}

pub fn of_change<'a>(
    xs: &'a [u16; 256],
    ys: &'a [u16; 256],
    n: usize,
    x: u32,
    y: u32,
    z: i32,
) -> Result<(), Refusal>
    ensures { (s : State) (zs : List ℤ) → HoldsPoints s xs.now ys.now zs n → code result ≡ refusal (Change x y z) s.contents }
{
    of_values(x, y, z)?;
    if !is_taken(xs, ys, n, x, y) {
        return Err(Refusal::Missing);
    }
    Ok(())
}

pub fn of_drop<'a>(
    xs: &'a [u16; 256],
    ys: &'a [u16; 256],
    n: usize,
    x: u32,
    y: u32,
) -> Result<(), Refusal>
    ensures { (s : State) (zs : List ℤ) → HoldsPoints s xs.now ys.now zs n → code result ≡ refusal (Drop x y) s.contents }
{
    if !is_in_domain(x, y) {
        return Err(Refusal::OffDomain);
    }
    if !is_taken(xs, ys, n, x, y) {
        return Err(Refusal::Missing);
    }
    Ok(())
}

// Of a lookup in n points, whatever they are.
pub fn of_lookup(n: usize, x: u32, y: u32) -> Result<(), Refusal>
    ensures { (s : State) → length s.contents.points ≡ min n 256 → code result ≡ lookup_refusal x y s }
{
    if !is_in_domain(x, y) {
        return Err(Refusal::OffDomain);
    }
    if n == 0 {
        return Err(Refusal::Empty);
    }
    Ok(())
}

// The same where `lent` neighbour records are lent.
pub fn of_lookup_neighbours(n: usize, x: u32, y: u32, lent: usize) -> Result<(), Refusal>
    ensures { (s : State) → length s.contents.points ≡ min n 256 → code result ≡ neighbours_refusal x y lent s }
{
    of_lookup(n, x, y)?;
    if lent < 10 {
        return Err(Refusal::TooFewLent);
    }
    Ok(())
}
