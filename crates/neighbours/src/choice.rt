// Who is chosen of the first points in order, and the radius R: document 01, "Who is chosen".
ghost use Rattle.std.specs.Prelude.{◌≡◌, map, ℕ, ◌≤◌, cond, length, take};
ghost use Rattle.model.specs.Point.{State, Location};
ghost use Rattle.model.specs.Choice.{Choice, choice, coincident as coincident_at, choice_apart};
ghost use Rattle.metric.specs.From.{Sees, Proper};
ghost use Rattle.neighbours.specs.Selects.{HoldsEnough, Selects, seen_from};
ghost use Rattle.neighbours.specs.Chose.{Holds};

use crate::{Chosen, Neighbour, Selection};
use candidates::{Candidate, Candidates};
use metric::Viewpoint;

// Whether a point is at the location: the nearest, if any is.
fn coincident(b: Candidates) -> bool
    ensures { (s : State) (p : Location) (k : ℕ) → HoldsEnough s p k b → result ≡ coincident_at s p }
{
    b.count > 0 && b.items[0].distance == 0
}

// Rules 2 to 5, for a lookup where no point is at the location. m points are present, k of them within R0; R is D of the first point left out, or R0, or 0 where four or fewer are present.
fn by_count(b: Candidates, m: usize, k: u32, r0: u32) -> Selection
    ensures count_bound { result.count ≤ 10 }
    ensures selects { (s : State) (p : Location) → HoldsEnough s p k b → m ≡ length s.contents.points → r0 ≡ s.extent.radius → Selects s p (choice_apart s p) b result }
{
    if k <= 4 {
        if m <= 4 {
            return Selection {
                count: m,
                radius: 0,
            };
        }
        return Selection {
            count: 4,
            radius: b.items[4].distance,
        };
    }
    if k <= 10 {
        return Selection {
            count: k as usize,
            radius: r0,
        };
    }
    Selection {
        count: 10,
        radius: b.items[10].distance,
    }
}

// Rule 1, or the others where no point is at the location; these alone where `apart`.
pub(crate) fn selected(b: Candidates, m: usize, k: u32, r0: u32, apart: bool) -> Selection
    ensures count_bound { result.count ≤ 10 }
    ensures selects { (s : State) (p : Location) → HoldsEnough s p k b → m ≡ length s.contents.points → r0 ≡ s.extent.radius
        → Selects s p (cond apart (choice_apart s p) (choice s p)) b result }
{
    if apart {
        return by_count(b, m, k, r0);
    }
    if coincident(b) {
        return Selection {
            count: 1,
            radius: 0,
        };
    }
    by_count(b, m, k, r0)
}

fn seen_from(v: Viewpoint, e: Candidate) -> Neighbour
    ensures { result ≡ seen_from v e }
{
    Neighbour {
        dx: metric::offset_x(v, e.x),
        dy: metric::offset_y(v, e.y),
        x: e.x,
        y: e.y,
        distance: e.distance,
        z: e.z,
    }
}

// The first k of the nearest, with their offsets.
fn neighbours(v: Viewpoint, items: [Candidate; 11], k: usize) -> [Neighbour; 10]
    requires { k ≤ 10 }
    ensures { take k result ≡ map (seen_from v) (take k items) }
{
    let e = Neighbour {
        dx: 0,
        dy: 0,
        x: 0,
        y: 0,
        distance: 0,
        z: 0,
    };
    let mut a = [e; 10];
    for i in 0..k {
        a[i] = seen_from(v, items[i]);
    }
    a
}

// The chosen ones of the nearest, of m points present.
pub(crate) fn filled(v: Viewpoint, b: Candidates, t: Selection, m: usize) -> Chosen
    requires { t.count ≤ 10 }
    ensures { (s : State) (p : Location) (k : ℕ) (c : Choice) → Sees s p v → Proper v → HoldsEnough s p k b → m ≡ length s.contents.points → Selects s p c b t → Holds s p c result }
{
    Chosen {
        items: neighbours(v, b.items, t.count),
        count: t.count,
        radius: t.radius,
        few: m <= 4,
    }
}
