// Where the object of a name lies now.
ghost use Rattle.std.specs.Prelude.{◌≡◌, true, [], ◌∷◌, ◌+◌, ◌≤◌, ◌<◌};
ghost use Rattle.rules.specs.House.{share, most_area};
ghost use Rattle.rules.specs.Stores.{list_now};
ghost use Rattle.rules.specs.Calls.{held, named};
ghost use Rattle.edits.specs.Edits.{object};
ghost use Rattle.state.specs.Model.{model_of};

use edits::edit::find;
use rules::{Addr, Place};
use state::Checked;
use state::queries::list_now;

// Where the object of a name that is held lies now: within the area, so that its first byte has an address.
pub fn find_now(c: Checked, name: u16) -> Place
    requires { held (model_of c.state) name ≡ true }
    ensures object_now { named name (list_now share (model_of c.state)) ≡ object name result.at.0 result.len ∷ [] }
    ensures within_area { (result.at.0 + result.len ≤ c.state.area) × (result.at.0 < most_area) }
{
    let list = list_now(c);
    let i = find(&list.names[..c.state.count], name).unwrap();
    Place {
        at: Addr(list.places[i] as u16),
        len: list.lens[i],
    }
}
