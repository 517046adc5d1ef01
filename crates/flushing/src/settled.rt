// The end of a flush: the new bounds stand, and the objects lie at their final places, in rising order of them.
ghost use Rattle.std.specs.Prelude.{◌≡◌, true, ℕ, ◌≤◌, ◌<◌, length, get_or};
ghost use Rattle.rules.specs.House.{share, classes, longest, most_objects};
ghost use Rattle.rules.specs.Classes.{by_place};
ghost use Rattle.rules.specs.Columns.{of_overflow};
ghost use Rattle.rules.specs.Stores.{places_now, settled_store, ahead_of};
ghost use Rattle.rules.specs.Calls.{last_ahead};
ghost use Rattle.edits.specs.Edits.{objects};
ghost use Rattle.layout.specs.Layout.{Bounded};
ghost use Rattle.orders.specs.Orders.{key_of};
ghost use Rattle.state.specs.Model.{old_count, flush_of, model_of};
ghost use Rattle.state.specs.Tests.{layout_in};
ghost use Rattle.flushing.specs.Flushing.{emptied, keys_of};

use edits::Columns;
use layout::Layout;
use leaves::lengths::class_of;
use orders::reordered;
use rules::house::{COLUMN, OBJECTS};
use state::queries::{layout_now, list_now};
use state::{Checked, Flush, Flushing, Regions, State};

// The regions with new sizes, their buffers empty from class b on.
fn emptied(r: Regions, b: u8, sizes: [u32; COLUMN]) -> Regions
    requires { b ≤ classes }
    ensures { result ≡ emptied r b sizes }
{
    let mut emptied = Regions { sizes, ..r };
    emptied.useds[usize::from(b)..].fill(0);
    emptied.lowests[usize::from(b)..].fill(0);
    emptied
}

// The key of an object, by its kind and its class.
fn key_of(kind: u8, class: u8) -> u8
    requires { (kind ≤ of_overflow) × (1 ≤ class) × (class ≤ classes) }
    ensures { result ≡ key_of kind class }
{
    if kind == 0 {
        return 0;
    }
    2 * class + kind - 2
}

// The key of each object.
fn keys_of<'a>(kinds: &'a [u8], lens: &'a [u16], n: usize) -> [u8; OBJECTS]
    requires few { (n ≤ most_objects) × (n ≤ length kinds.now) × (n ≤ length lens.now) }
    requires kinds_few { (k : ℕ) → get_or kinds.now k 0 ≤ of_overflow }
    requires lens_fit { (k : ℕ) → k < n → (1 ≤ get_or lens.now k 0) × (get_or lens.now k 0 ≤ longest) }
    ensures { result ≡ keys_of kinds.now lens.now n }
{
    let mut out = [0u8; OBJECTS];
    for i in 0..n {
        out[i] = key_of(kinds[i], class_of(lens[i]));
    }
    out
}

// The objects after the last move, in rising place order: key by key.
fn in_place_order(f: Flushing, l: Layout) -> Columns
    requires last { last_ahead (ahead_of share (model_of f.state) (flush_of f.state)) ≡ true }
    requires laid { (l ≡ layout_in f.state (old_count f.state)) × Bounded l }
    ensures { objects result f.state.count ≡ by_place (places_now share (model_of f.state) (flush_of f.state)) }
{
    let state = f.state;
    let keys = keys_of(&l.kinds, &state.objects.lens, state.count);
    reordered(&keys, list_now(Checked { state }), state.count)
}

// The value at rest after the flush.
pub(crate) fn settled(f: Flushing) -> State
    requires { last_ahead (ahead_of share (model_of f.state) (flush_of f.state)) ≡ true }
    ensures { model_of result ≡ settled_store share (model_of f.state) (flush_of f.state) }
{
    let s = f.state;
    let l = layout_now(f);
    State {
        regions: emptied(s.regions, s.flush.boundary, l.sizes),
        objects: in_place_order(f, l),
        flush: Flush {
            boundary: 0,
            made: 0,
            deleted: 0,
            due: false,
        },
        ..s
    }
}
