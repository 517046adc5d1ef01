// An accepted delete: with a record in a buffer, or by a flush.
ghost use Rattle.std.specs.Prelude.{◌≡◌, true, false, ◌∷◌, ◌++◌, ◌+◌, ◌≤◌, ◌<◌, get_or};
ghost use Rattle.rules.specs.House.{share, classes, most_objects};
ghost use Rattle.rules.specs.Classes.{class_of};
ghost use Rattle.rules.specs.Answers.{first};
ghost use Rattle.rules.specs.Stores.{dropping, resting_at, begun};
ghost use Rattle.rules.specs.Placing.{entered};
ghost use Rattle.rules.specs.Calls.{test, running, store_tests, name_tests, boundary_for, delete_of};
ghost use Rattle.rules.specs.declared.Answer.TheVariants.{Done, Busy};
ghost use Rattle.state.specs.Model.{rests, model_of};
ghost use Rattle.state.specs.Tests.{Ready};
ghost use Rattle.requests.specs.Requests.{Without, in_flush, flush_from};

use crate::Begun;
use crate::flushes::begun;
use crate::regions::{boundary_for, entered, room};
use edits::edit::{find, removed};
use leaves::lengths::class_of;
use rules::Answer;
use state::{Flush, State};

// The value without the object at index i.
fn without(s: State, i: usize) -> State
    requires { (i < s.count) × (s.count ≤ most_objects) }
    ensures { Without s i result }
{
    State {
        objects: removed(s.objects, s.count, i),
        count: s.count - 1,
        ..s
    }
}

// A record of this length in buffer j.
fn noted(s: State, j: u8, len: u16) -> State
    requires at_rest { rests s.flush ≡ true }
    requires j_le_classes { (j ≤ classes) × (get_or s.regions.useds j 0 + len ≤ 16777216) }
    ensures { model_of result ≡ resting_at (model_of s).area (entered (model_of s).regions j (class_of len) len) (model_of s).objects }
{
    State {
        regions: entered(s.regions, j, class_of(len), len),
        ..s
    }
}

// A flush for an object of this length that is gone.
fn dropping(s: State, len: u16) -> State
    requires at_rest { (rests s.flush ≡ true) × (0 < len) }
    requires ready { Ready (in_flush s (flush_from (boundary_for (model_of s) len) len false)) s.count }
    ensures { model_of result ≡ begun share (model_of s) (dropping len) (boundary_for (model_of s) len) }
{
    let flush = Flush {
        boundary: boundary_for(s.regions, len),
        made: 0,
        deleted: len,
        due: false,
    };
    begun(State { flush, ..s }, s.count)
}

// An accepted delete.
pub fn delete(s: State, name: u16) -> Begun
    requires { first (store_tests (model_of s) (model_of s).area ++ (test (running (model_of s).stage) Busy ∷ name_tests (model_of s) name)) ≡ Done }
    ensures { (model_of result.state ≡ (delete_of (model_of s) name).store) × (result.answer ≡ (delete_of (model_of s) name).answer) }
{
    let i = find(&s.objects.names[..s.count], name).unwrap();
    let len = s.objects.lens[i];
    let rest = without(s, i);
    match room(s.regions, len) {
        Some(j) => Begun {
            state: noted(rest, j, len),
            answer: Answer::Done,
        },
        None => Begun {
            state: dropping(rest, len),
            answer: Answer::Running,
        },
    }
}
