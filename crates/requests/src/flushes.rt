// A flush that begins.
ghost use Rattle.std.specs.Prelude.{◌≡◌};
ghost use Rattle.rules.specs.House.{share};
ghost use Rattle.rules.specs.Flush.{plan, at_wait};
ghost use Rattle.state.specs.Tests.{Ready, start_at};
ghost use Rattle.requests.specs.Requests.{with_due};

use plan::waits::run_ends;
use state::running::{ahead_by, layout_in};
use state::{Flush, State};

// The value before the first move of its flush: a checkpoint is due, or not, as the plan has it.
pub fn begun(s: State, old: usize) -> State
    requires { Ready s old }
    ensures { result ≡ with_due s (at_wait (plan share (start_at s old))) }
{
    let l = layout_in(s, old);
    let due = run_ends(ahead_by(s, l, old, 0), 0);
    State {
        flush: Flush {
            made: 0,
            due,
            ..s.flush
        },
        ..s
    }
}
