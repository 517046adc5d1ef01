// Names differ.
ghost use Rattle.std.specs.Prelude.{◌≡◌, List, ℕ, ◌≤◌, length};
ghost use Rattle.rules.specs.House.{most_objects};
ghost use Rattle.rules.specs.Columns.{listed};
ghost use Rattle.rules.specs.Sound.{names_differ};

use ranks::name_order;

// No two of the objects have one name: in order of name, each name is greater than the one before it.
pub fn names_differ(names: &[u16]) -> bool
    requires { length names.now ≤ most_objects }
    ensures { (places lens : List ℕ) → result ≡ names_differ (listed names.now places lens 0 (length names.now)) }
{
    let order = name_order(names);
    for i in 1..names.len() {
        let before = usize::from(order[i - 1]);
        let here = usize::from(order[i]);
        if names[here] <= names[before] {
            return false;
        }
    }
    true
}
