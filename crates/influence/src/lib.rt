// How a neighbour bears on the mean, and its factor: document 01's pull and strength.
#![tactic(auto)]

ghost use Rattle.std.specs.Prelude.{◌≡◌, ◌≤◌};
ghost use Rattle.model.specs.Influence.{inverse, tapered, influence_at};
ghost use Rattle.model.specs.Computed.{factor_f};
ghost use Rattle.influence.specs.Carried.{carried, kind_of, factor_of, edge_of};

use floats::to_float;

// The four influences, with the factor where it has to be worked out.
#[derive(Clone, Copy)]
pub enum Influence {
    Coincident,
    Inverse(f64),
    Tapered(f64),
    Edge,
}

// 1 / d.
fn inverse_factor(distance: u32) -> f64
    ensures { result ≡ factor_f (inverse distance) }
{
    to_float(1) / to_float(u64::from(distance))
}

// 27 (r - d)² / (4 r³).
fn tapered_factor(radius: u32, distance: u32) -> f64
    requires { distance ≤ radius }
    ensures { result ≡ factor_f (tapered radius distance) }
{
    let t = to_float(u64::from(radius - distance));
    let r = to_float(u64::from(radius));
    to_float(27) * (t * t) / (to_float(4) * (r * (r * r)))
}

// The influence of a neighbour at a distance; few: four points or fewer are present.
pub fn influence_at(few: bool, radius: u32, distance: u32) -> Influence
    ensures { result ≡ carried (influence_at few radius distance) }
{
    if distance == 0 {
        return Influence::Coincident;
    }
    if few {
        return Influence::Inverse(inverse_factor(distance));
    }
    if 3 * u64::from(distance) <= u64::from(radius) {
        return Influence::Inverse(inverse_factor(distance));
    }
    if distance < radius {
        return Influence::Tapered(tapered_factor(radius, distance));
    }
    Influence::Edge
}

// The reported number of an influence: by a match, since an enum two of whose variants carry a factor has no cast.
pub fn kind_of(influence: Influence) -> u8
    ensures { result ≡ kind_of influence }
{
    match influence {
        Influence::Coincident => 0,
        Influence::Inverse(_) => 1,
        Influence::Tapered(_) => 2,
        Influence::Edge => 3,
    }
}

pub fn factor_of(influence: Influence) -> f64
    ensures { result ≡ factor_of influence }
{
    match influence {
        Influence::Coincident => 1.0,
        Influence::Inverse(s) | Influence::Tapered(s) => s,
        Influence::Edge => 0.0,
    }
}

pub fn is_edge(influence: Influence) -> bool
    ensures { result ≡ edge_of influence }
{
    matches!(influence, Influence::Edge)
}
