// Where a lookup is made from, and how far a point is from there: its squared distance d² and its offsets in x and in y.
#![tactic(auto)]

ghost use Rattle.std.specs.Prelude.{◌≡◌, ◌%◌};
ghost use Rattle.metric.specs.From.{Proper, squared_from, offset_x_from, offset_y_from};

// The location of a lookup.
#[derive(Clone, Copy)]
pub struct Viewpoint {
    pub x: u16,
    pub y: u16,
}

// d² of a point of the arrays as it is read. The differences take 16 bits, so that a pass works out eight at a time.
#[tactic(auto, unfolding(crate::specs::From::squared_from))]
pub fn squared_from(v: Viewpoint, x: u16, y: u16) -> u32
    requires { Proper v }
    ensures { result ≡ squared_from v (x % 4096) (y % 4096) }
{
    let dx = u32::from(v.x.abs_diff(point_arrays::coordinate(x)));
    let dy = u32::from(v.y.abs_diff(point_arrays::coordinate(y)));
    dx * dx + dy * dy
}

// The offset of a point in x, in 16 bits, so that a neighbour takes 16 bytes. Coordinates are read as those of the arrays are.
#[tactic(auto, unfolding(crate::specs::From::offset_x_from))]
pub fn offset_x(v: Viewpoint, x: u16) -> i16
    ensures { result ≡ offset_x_from v x }
{
    point_arrays::coordinate(x) as i16 - point_arrays::coordinate(v.x) as i16
}

// The offset of a point in y.
#[tactic(auto, unfolding(crate::specs::From::offset_y_from))]
pub fn offset_y(v: Viewpoint, y: u16) -> i16
    ensures { result ≡ offset_y_from v y }
{
    point_arrays::coordinate(y) as i16 - point_arrays::coordinate(v.y) as i16
}
