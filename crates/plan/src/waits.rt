// Where a plan waits for a checkpoint, by what it has ahead.
ghost use Rattle.std.specs.Prelude.{◌≡◌};
ghost use Rattle.plan.specs.Turns.{run_ends, may_be_due};

use crate::Ahead;

// A run ends with the last of `made` moves.
pub fn run_ends(a: Ahead, made: u32) -> bool
    ensures { result ≡ run_ends a.total made a.next }
{
    made == a.total || made != 0 && a.next.is_some_and(|turn| turn.begins)
}

// A checkpoint may be due, or not be due, after `made` moves.
pub fn may_be_due(a: Ahead, made: u32, due: bool) -> bool
    ensures { result ≡ may_be_due a.total made a.next due }
{
    if made == a.total {
        due
    } else {
        made < a.total && (run_ends(a, made) || !due)
    }
}
