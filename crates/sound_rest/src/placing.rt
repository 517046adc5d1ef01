// Used space is within its buffer, and objects lie apart, each where it may.
ghost use Rattle.std.specs.Prelude.{◌≡◌, ◌&&◌, cond, List, ℕ, ◌≤◌, ◌+◌, ◌/◌, length, leb, eqb};
ghost use Rattle.rules.specs.House.{share, classes};
ghost use Rattle.rules.specs.Classes.{class_of};
ghost use Rattle.rules.specs.Regions.{every, table, start_of};
ghost use Rattle.rules.specs.Columns.{listed};
ghost use Rattle.rules.specs.Flush.{within, in_payload};
ghost use Rattle.rules.specs.Sound.{each, used_fits, lowest_fits, in_buffer, in_some_buffer, lies_well, apart_from};
ghost use Rattle.sound_rest.specs.Rest.{regions_of, unnamed};

use leaves::lengths::class_of;
use leaves::regions::Regions;
use leaves::segments::{entry_at, starts};
use rules::house::{COLUMN, SHARE, STARTS};

// The regions, and where each of them starts.
#[derive(Clone, Copy)]
struct Laid<'a> {
    regions: &'a Regions,
    bases: [u64; STARTS],
    ghost based: { bases ≡ table (start_of share regions.now.sizes) 0 (2 + classes) },
}

// An object's place and length, and the class of the length.
#[derive(Clone, Copy)]
struct Object {
    at: u32,
    len: u16,
    class: u8,
    ghost classed: { class ≡ class_of len },
}

// Used space is within the buffer of a payload of this size.
fn used_fits(size: u32, used: u32) -> bool
    ensures { result ≡ leb used (size / share) }
{
    u64::from(used) <= u64::from(size) / SHARE
}

// A buffer's lowest class is 0 if nothing is used, else 1 to its number.
fn lowest_fits(used: u32, lowest: u8, number: usize) -> bool
    ensures { result ≡ cond (eqb used 0) (eqb lowest 0) (leb 1 lowest && leb lowest number) }
{
    if used == 0 {
        lowest == 0
    } else {
        1 <= lowest && usize::from(lowest) <= number
    }
}

// Every buffer has its used space and its lowest class as they must be.
pub(crate) fn buffers_fit<'a>(regions: &'a Regions) -> bool
    ensures { result ≡ every (used_fits share (regions_of regions.now)) 1 classes
        && every (lowest_fits (regions_of regions.now)) 1 classes }
{
    (1..COLUMN).all(|class| {
        used_fits(regions.sizes[class], regions.useds[class])
            && lowest_fits(regions.useds[class], regions.lowests[class], class)
    })
}

// An object lies in the `size` bytes that begin `skip` bytes after `start`.
fn inside(start: u64, skip: u32, size: u32, object: Object) -> bool
    ensures { result ≡ within (start + skip) size (unnamed object.at object.len) }
{
    let place = u64::from(object.at);
    start <= place
        && start + u64::from(skip) <= place
        && place + u64::from(object.len) <= start + u64::from(skip) + u64::from(size)
}

// An object lies in the payload of its class.
fn in_payload<'a>(laid: &'a Laid<'a>, object: Object) -> bool
    ensures { result ≡ in_payload share (regions_of laid.now.regions.now) (unnamed object.at object.len) }
{
    let k = usize::from(object.class);
    inside(laid.bases[k], 0, entry_at(&laid.regions.sizes, k), object)
}

// An object lies in the used part of buffer j, and its class is from the buffer's lowest up to j.
fn in_buffer<'a>(laid: &'a Laid<'a>, j: usize, object: Object) -> bool
    requires { j ≤ classes }
    ensures { result ≡ in_buffer share (regions_of laid.now.regions.now) (unnamed object.at object.len) j }
{
    let regions = laid.regions;
    regions.lowests[j] <= object.class
        && usize::from(object.class) <= j
        && inside(laid.bases[j], regions.sizes[j], regions.useds[j], object)
}

// An object lies so in some buffer.
fn in_some_buffer<'a>(laid: &'a Laid<'a>, object: Object) -> bool
    ensures { result ≡ in_some_buffer share (regions_of laid.now.regions.now) (unnamed object.at object.len) 1 classes }
{
    (1..COLUMN).any(|j| in_buffer(laid, j, object))
}

// An object lies in the payload of its class, or in a buffer.
fn lies_well<'a>(laid: &'a Laid<'a>, at: u32, len: u16) -> bool
    ensures { result ≡ lies_well share (regions_of laid.now.regions.now) (unnamed at len) }
{
    let class = class_of(len);
    let object = Object { at, len, class };
    in_payload(laid, object) || in_some_buffer(laid, object)
}

// Each of the objects lies where it may, and ends before the next begins.
pub(crate) fn objects_lie<'a>(regions: &'a Regions, places: &'a [u32], lens: &'a [u16]) -> bool
    requires { length places.now ≡ length lens.now }
    ensures { (names : List ℕ) → result
        ≡ each (lies_well share (regions_of regions.now)) (listed names places.now lens.now 0 (length lens.now))
        && apart_from 0 (listed names places.now lens.now 0 (length lens.now)) }
{
    let bases = starts(&regions.sizes);
    let laid = Laid { regions, bases };
    let mut edge: u64 = 0;
    for (at, len) in places.iter().zip(lens) {
        let place = u64::from(*at);
        if place < edge || !lies_well(&laid, *at, *len) {
            return false;
        }
        edge = place + u64::from(*len);
    }
    true
}
