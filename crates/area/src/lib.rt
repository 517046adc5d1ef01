// The byte area: the two ways it is written, each by one function that is handed the place itself and nothing else for writing.
// The functions here serve the crates above and are no entry points: that a place lies in the area they require.
#![tactic(auto)]

ghost use Rattle.std.specs.Prelude.{◌≡◌, ◌≤◌, ◌+◌, length, take, drop};
ghost use Rattle.rules.specs.House.{longest};
ghost use Rattle.rules.specs.Calls.{written};
ghost use Rattle.area.specs.Writes.{write_of};

use rules::house::LONGEST_PAGE;

// The one function that writes the area. It is handed the place alone.
fn write_place(page: &[u8], place: &mut [u8])
    requires { length page.now ≡ length place.old }
    ensures { place.new ≡ page.now }
{
    place.copy_from_slice(page);
}

// The bytes of an object, fetched before they are moved.
fn fetch(object: &[u8], hand: &mut [u8])
    requires { length object.now ≤ length hand.old }
    ensures { take (length object.now) hand.new ≡ object.now }
{
    hand[..object.len()].copy_from_slice(object);
}

// A page is written at a place.
pub fn write_page(area: &mut [u8], at: usize, page: &[u8])
    requires { at + length page.now ≤ length area.old }
    ensures { area.new ≡ written area.old (write_of at page.now) }
{
    let end = at + page.len();
    write_place(page, &mut area[at..end]);
}

// A whole object is moved. Its old and its new place may overlap, and a copy within the area would be handed all of it for writing: so it
// goes by way of a local page.
pub fn move_page(area: &mut [u8], from: usize, to: usize, len: usize)
    requires { (len ≤ longest) × (from + len ≤ length area.old) × (to + len ≤ length area.old) }
    ensures { area.new ≡ written area.old (write_of to (take len (drop from area.old))) }
{
    let mut hand = [0u8; LONGEST_PAGE];
    fetch(&area[from..from + len], &mut hand);
    write_place(&hand[..len], &mut area[to..to + len]);
}
