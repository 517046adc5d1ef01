// What a value of the store tells: find, read and its answer, footprint, volume, and whether a checkpoint is due.
// The functions here are the queries of the store above, which hands them its value: they take any arguments, and test what they are handed.
#![tactic(auto)]

ghost use Rattle.std.specs.Prelude.{◌≡◌, length};
ghost use Rattle.rules.specs.Calls.{read_answer, read_of, footprint_of, volume_held};
ghost use Rattle.state.specs.Model.{model_of};
ghost use Rattle.asking.specs.Asked.{find_told, told_of, checkpoint_of};
ghost use Rattle.asking.specs.Lent.{read_from};

use refusals::ask_answer;
use refusals::places::find_now;
use rules::{Answer, Name, Place};
use state::State;

// Where the page of a name lies now.
pub fn find(s: State, name: Name) -> Result<Place, Answer>
    ensures { result ≡ find_told (model_of s) name.0 }
{
    let c = refusals::read_answer(s, s.area as usize, name.0)?;
    Ok(find_now(c, name.0))
}

// What a read of the same arguments answers.
pub fn read_answer<'a>(s: State, area: &'a [u8], blank: &'a [u8], name: Name) -> Answer
    ensures { result ≡ read_answer (model_of s) (length area.now) name.0 }
{
    refusals::read_answer(s, area.len(), name.0)
        .err()
        .unwrap_or(Answer::Done)
}

// The page of a name, as the part of the area where it lies now; on any refusal the blank page.
pub fn read<'a>(s: State, area: &'a [u8], blank: &'a [u8], name: Name) -> &'a [u8]
    ensures bytes { result.now ≡ read_of (model_of s) area.now blank.now name.0 }
    ensures start { result.ref_ptr ≡ read_from (model_of s) (length area.now) area.entry.ref_ptr blank.entry.ref_ptr name.0 }
{
    match refusals::read_answer(s, area.len(), name.0) {
        Ok(c) => {
            let place = find_now(c, name.0);
            let at = place.at.0 as usize;
            &area[at..at + place.len as usize]
        }
        Err(_) => blank,
    }
}

// The footprint: F at rest, the end of overflow in a flush.
pub fn footprint(s: State) -> Result<u32, Answer>
    ensures { result ≡ told_of (model_of s) (footprint_of (model_of s)) }
{
    Ok(state::queries::footprint(ask_answer(s)?))
}

// The live volume.
pub fn volume(s: State) -> Result<u32, Answer>
    ensures { result ≡ told_of (model_of s) (volume_held (model_of s)) }
{
    Ok(state::queries::volume(ask_answer(s)?) as u32)
}

// Whether a checkpoint is due.
pub fn due(s: State) -> Result<bool, Answer>
    ensures { result ≡ checkpoint_of (model_of s) }
{
    Ok(ask_answer(s)?.state.flush.due)
}
