// What the regions tell of a request, and the regions after one that needs no flush.
ghost use Rattle.std.specs.Prelude.{◌≡◌, ◌+◌, ◌≤◌, ltb, get_or, unwrap_or};
ghost use Rattle.rules.specs.House.{share, classes};
ghost use Rattle.rules.specs.Classes.{class_of};
ghost use Rattle.rules.specs.Regions.{top_class, buffer_start};
ghost use Rattle.rules.specs.Boundary.{boundary_of};
ghost use Rattle.rules.specs.Placing.{room_for, lower_of, entered, raised};
ghost use Rattle.leaves.specs.Room.{some_room};
ghost use Rattle.state.specs.Model.{sizes_in, regions_in};

use leaves::lengths::class_of;
use leaves::segments::{room_for, starts, top_class};
use state::Regions;
use state::running::sizes_of;

// A length is of a class above the top class.
pub fn above_top(t: Regions, len: u16) -> bool
    ensures { result ≡ ltb (top_class (sizes_in t)) (class_of len) }
{
    top_class(&sizes_of(t)) < class_of(len)
}

// The buffer that takes an object or a record of this length. The rules' number for it has 0 for none.
pub fn room(t: Regions, len: u16) -> Option<u8>
    ensures value { result ≡ some_room share (sizes_in t) t.useds (class_of len) len }
    ensures by_rule { unwrap_or result 0 ≡ room_for share (sizes_in t) t.useds (class_of len) len }
{
    room_for(&sizes_of(t), &t.useds, class_of(len), len)
}

// The boundary of a request of this length.
pub fn boundary_for(t: Regions, len: u16) -> u8
    ensures { result ≡ boundary_of t.useds t.lowests (class_of len) }
{
    t.boundary(class_of(len))
}

// Where the unused space of buffer j starts.
pub fn unused_at(t: Regions, j: u8) -> u32
    requires { (j ≤ classes) × (buffer_start share (sizes_in t) j + get_or t.useds j 0 ≤ 16777216) }
    ensures { result ≡ buffer_start share (sizes_in t) j + get_or t.useds j 0 }
{
    let sizes = sizes_of(t);
    let k = j as usize;
    let at = starts(&sizes)[k] + u64::from(sizes[k]) + u64::from(t.useds[k]);
    at as u32
}

// The lower of two classes entered, 0 standing for none.
fn lower_of(low: u8, class: u8) -> u8
    ensures { result ≡ lower_of low class }
{
    if low == 0 { class } else { class.min(low) }
}

// An object or a record of this class and length uses space in buffer j.
pub fn entered(mut t: Regions, j: u8, class: u8, len: u16) -> Regions
    requires { (j ≤ classes) × (get_or t.useds j 0 + len ≤ 16777216) }
    ensures { regions_in result ≡ entered (regions_in t) j class len }
{
    let k = j as usize;
    t.useds[k] += u32::from(len);
    t.lowests[k] = lower_of(t.lowests[k], class);
    t
}

// A class above the top class gets its payload.
pub fn raised(mut t: Regions, class: u8, len: u16) -> Regions
    requires { (1 ≤ class) × (class ≤ classes) }
    ensures { regions_in result ≡ raised (regions_in t) class len }
{
    t.sizes[class as usize] = u32::from(len);
    t
}
