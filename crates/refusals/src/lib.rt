// What each call answers: its tests, in their order, and (places.rt) where an object lies now. The functions here serve the store above
// and are no entry points; an answer is told for any value of the store, and `holds` and a place for a sound one.
#![tactic(auto)]

ghost use Rattle.std.specs.Prelude.{◌≡◌, [], ◌∷◌, ◌++◌, ◌+◌, ◌≤◌, ltb, length};
ghost use Rattle.rules.specs.House.{share, longest, quota_of};
ghost use Rattle.rules.specs.Classes.{volume};
ghost use Rattle.rules.specs.Stores.{held_by};
ghost use Rattle.rules.specs.Answers.{first};
ghost use Rattle.rules.specs.Calls.{held, running, due_in, test, store_tests, name_tests, insert_tests, map_size};
ghost use Rattle.rules.specs.declared.Answer.TheVariants.{Busy, CheckpointDue, ShortBuffer};
ghost use Rattle.state.specs.Model.{model_of};
ghost use Rattle.refusals.specs.Tests.{page_tests, passed, handed};

use edits::edit::find;
use leaves::lengths::quota;
use rules::Answer;
use rules::house::{ENTRY, HEAD, LONGEST_PAGE, OBJECTS};
use state::queries::volume;
use state::sound::{checked, rests};
use state::{Checked, State};

pub mod places;

// The tests of every call.
#[tactic(auto, unfolding(rules::specs::Answers::first), using(crate::proofs::Known::area_is))]
fn store_answer(s: State, lent: usize) -> Result<Checked, Answer>
    ensures { handed result ≡ passed s (first (store_tests (model_of s) lent)) }
{
    if s.area == 0 {
        return Err(Answer::WrongArea);
    }
    let Some(c) = checked(s) else {
        return Err(Answer::Unsound);
    };
    if lent != s.area as usize {
        return Err(Answer::WrongArea);
    }
    Ok(c)
}

// The tests of a call that lends no area.
#[tactic(auto, using(crate::proofs::Known::area_is))]
pub fn ask_answer(s: State) -> Result<Checked, Answer>
    ensures { handed result ≡ passed s (first (store_tests (model_of s) (model_of s).area)) }
{
    store_answer(s, s.area as usize)
}

// A name is held.
fn holds(c: Checked, name: u16) -> bool
    ensures { result ≡ held (model_of c.state) name }
{
    let s = c.state;
    find(&s.objects.names[..s.count], name).is_some()
}

// A page of this length is above the quota.
fn above_quota(c: Checked, len: usize) -> bool
    requires { len ≤ longest }
    ensures { result ≡ ltb (quota_of share longest (model_of c.state).area) (volume (held_by (model_of c.state)) + len) }
{
    u64::from(quota(c.state.area)) < volume(c) + len as u64
}

// Insert.
pub fn insert_answer(s: State, lent: usize, name: u16, page: &[u8]) -> Result<Checked, Answer>
    ensures { handed result ≡ passed s (first (insert_tests (model_of s) lent name page.now)) }
{
    let c = store_answer(s, lent)?;
    if !rests(s.flush) {
        return Err(Answer::Busy);
    }
    page_answer(c, name, page)
}

// The tests of an insert into a store at rest.
#[tactic(auto, unfolding(rules::specs::Answers::first), using(crate::proofs::Known::count_is))]
fn page_answer(c: Checked, name: u16, page: &[u8]) -> Result<Checked, Answer>
    ensures { handed result ≡ passed c.state (first (page_tests (model_of c.state) name page.now)) }
{
    if name == 0 {
        return Err(Answer::NameZero);
    }
    if page.is_empty() || LONGEST_PAGE < page.len() {
        return Err(Answer::BadLength);
    }
    if holds(c, name) {
        return Err(Answer::NameHeld);
    }
    if OBJECTS <= c.state.count {
        return Err(Answer::Full);
    }
    if above_quota(c, page.len()) {
        return Err(Answer::OverQuota);
    }
    Ok(c)
}

// The tests of a name to be found.
#[tactic(auto, unfolding(rules::specs::Answers::first))]
fn name_answer(c: Checked, name: u16) -> Result<Checked, Answer>
    ensures { handed result ≡ passed c.state (first (name_tests (model_of c.state) name)) }
{
    if name == 0 {
        return Err(Answer::NameZero);
    }
    if !holds(c, name) {
        return Err(Answer::NotHeld);
    }
    Ok(c)
}

// Delete.
pub fn delete_answer(s: State, name: u16) -> Result<Checked, Answer>
    ensures { handed result ≡ passed s (first (store_tests (model_of s) (model_of s).area ++ (test (running (model_of s).stage) Busy ∷ name_tests (model_of s) name))) }
{
    let c = ask_answer(s)?;
    if !rests(s.flush) {
        return Err(Answer::Busy);
    }
    name_answer(c, name)
}

// Step.
pub fn step_answer(s: State, lent: usize) -> Result<Checked, Answer>
    ensures { handed result ≡ passed s (first (store_tests (model_of s) lent ++ (test (due_in (model_of s).stage) CheckpointDue ∷ []))) }
{
    let c = store_answer(s, lent)?;
    if s.flush.due {
        return Err(Answer::CheckpointDue);
    }
    Ok(c)
}

// Confirm, into a buffer of this length.
pub fn confirm_answer(s: State, room: usize) -> Result<Checked, Answer>
    ensures { handed result ≡ passed s (first (store_tests (model_of s) (model_of s).area ++ (test (ltb room (map_size (length (held_by (model_of s))))) ShortBuffer ∷ []))) }
{
    let c = ask_answer(s)?;
    if room < HEAD + ENTRY * s.count {
        return Err(Answer::ShortBuffer);
    }
    Ok(c)
}

// Read, and, with the opening's own length lent, find.
pub fn read_answer(s: State, lent: usize, name: u16) -> Result<Checked, Answer>
    ensures { handed result ≡ passed s (first (store_tests (model_of s) lent ++ name_tests (model_of s) name)) }
{
    name_answer(store_answer(s, lent)?, name)
}
