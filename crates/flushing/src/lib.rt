// A running flush goes on: by a step, and by a confirmation.
// The functions here serve the store above and are no entry points: what they require the tests of the call have shown.
#![tactic(auto)]

mod settled;

ghost use Rattle.std.specs.Prelude.{◌≡◌, [], ◌∷◌, ◌++◌, ◌+◌, ◌*◌, ◌≤◌, length};
ghost use Rattle.rules.specs.House.{share, most_objects};
ghost use Rattle.rules.specs.Flush.{plan, ahead, at_wait};
ghost use Rattle.rules.specs.Stores.{flushing, at_stage, start_in, advanced, waited};
ghost use Rattle.rules.specs.Answers.{first};
ghost use Rattle.rules.specs.declared.Answer.TheVariants.{Done, CheckpointDue};
ghost use Rattle.rules.specs.Calls.{written, test, store_tests, due_in, step_of, confirm_in};
ghost use Rattle.state.specs.Model.{flush_of, model_of};
ghost use Rattle.flushing.specs.Flushing.{went_on};

use crate::settled::settled;
use area::move_page;
use state::queries::{is_last, onward};
use state::sound::rests;
use state::{Checked, Flush, Flushing, State};

// The value with so many moves made, and a checkpoint due or not.
fn went_on(s: State, made: u32, due: bool) -> State
    ensures { result ≡ went_on s made due }
{
    State {
        flush: Flush {
            made,
            due,
            ..s.flush
        },
        ..s
    }
}

// The value with one move more made, and what is due behind it.
fn advanced(f: Flushing, due: bool) -> State
    requires made_few { f.state.flush.made ≤ 4 * most_objects }
    requires due_behind { due ≡ at_wait (ahead (plan share (start_in (model_of f.state) (flush_of f.state))) (f.state.flush.made + 1)) }
    ensures { model_of result ≡ at_stage (model_of f.state) (flushing (advanced share (model_of f.state) (flush_of f.state))) }
{
    went_on(f.state, f.state.flush.made + 1, due)
}

// One move of the running flush: nothing is due, so that one is next.
pub fn step(f: Flushing, area: &mut [u8]) -> State
    requires { first (store_tests (model_of f.state) (length area.old) ++ (test (due_in (model_of f.state).stage) CheckpointDue ∷ [])) ≡ Done }
    ensures value { model_of result ≡ (step_of (model_of f.state) area.old).store }
    ensures area_after { area.new ≡ written area.old (step_of (model_of f.state) area.old).write }
{
    let o = onward(f);
    let t = o.turn.unwrap();
    let len = usize::from(f.state.objects.lens[t.index]);
    move_page(area, t.from as usize, t.to as usize, len);
    advanced(f, o.waits)
}

// The value with its due checkpoint confirmed.
fn waited(f: Flushing) -> State
    ensures { model_of result ≡ at_stage (model_of f.state) (flushing (waited (flush_of f.state))) }
{
    went_on(f.state, f.state.flush.made, false)
}

// A confirmation.
pub fn confirm(c: Checked) -> State
    ensures { model_of result ≡ confirm_in share (model_of c.state) (model_of c.state).stage }
{
    let state = c.state;
    if rests(state.flush) || !state.flush.due {
        return state;
    }
    let f = Flushing { state };
    if is_last(f) { settled(f) } else { waited(f) }
}
