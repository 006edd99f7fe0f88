// Neighbour records: what a lookup gives of each chosen point beside its answer.
#![tactic(auto)]

ghost use Rattle.std.specs.Prelude.{◌≡◌, ◌≤◌, length, take};
ghost use Rattle.model.specs.Lists.{laid};
ghost use Rattle.model.specs.Point.{Location, State};
ghost use Rattle.neighbours.specs.Chose.{Chose};
ghost use Rattle.neighbour_records.specs.Records.{item_record, no_record, Listed};

use neighbours::{Chosen, Neighbour};

// A chosen point, its distance D in 256ths of a step, and its kind: 0 coincident, 1 inverse, 2 tapered, 3 edge.
#[derive(Clone, Copy)]
pub struct Record {
    pub x: u16,
    pub y: u16,
    pub z: i8,
    pub distance: u32,
    pub kind: u8,
}

// Records in order of choice: the first `count` of the items; what the others hold is free.
#[derive(Clone, Copy)]
pub struct RecordList {
    pub items: [Record; 10],
    pub count: usize,
}

// A record of zeros, for a list to lend.
pub fn blank() -> Record
    ensures { result ≡ no_record }
{
    Record {
        x: 0,
        y: 0,
        z: 0,
        distance: 0,
        kind: 0,
    }
}

// The record of a chosen point; few: four points or fewer are present.
fn item_record(few: bool, radius: u32, a: Neighbour) -> Record
    ensures { result ≡ item_record few radius a }
{
    Record {
        x: a.x,
        y: a.y,
        z: a.z,
        distance: a.distance,
        kind: influence::kind_of(influence::influence_at(few, radius, a.distance)),
    }
}

// No records.
pub fn none() -> RecordList
    ensures { result.count ≡ 0 }
{
    RecordList {
        items: [blank(); 10],
        count: 0,
    }
}

// The records of the chosen points in order of choice.
pub fn records_of(c: Chosen) -> RecordList
    requires { c.count ≤ 10 }
    ensures { (s : State) (p : Location) → Chose s p c → Listed s p result }
{
    let mut items = [blank(); 10];
    for i in 0..c.count {
        items[i] = item_record(c.few, c.radius, c.items[i]);
    }
    RecordList {
        items,
        count: c.count,
    }
}

// The records to the front of the lent list; the rest of it is untouched.
pub fn fill<'a>(list: &'a mut [Record], found: RecordList)
    requires { (found.count ≤ 10) × (found.count ≤ length list.old) }
    ensures { list.new ≡ laid (take found.count found.items) list.old }
{
    let n = found.count;
    list[..n].copy_from_slice(&found.items[..n]);
}
