// The calls that ask: find, read and its answer, footprint, volume, and whether a checkpoint is due. What each tells is `asking`'s.
ghost use Rattle.std.specs.Prelude.{◌≡◌, length};
ghost use Rattle.rules.specs.Calls.{read_answer, read_of, footprint_of, volume_held};
ghost use Rattle.asking.specs.Asked.{find_told, told_of, checkpoint_of};
ghost use Rattle.asking.specs.Lent.{read_from};
ghost use Rattle.store.specs.Served.{model};

use crate::Store;
use rules::{Answer, Name, Place};

// Where the page of a name lies now.
pub fn find(store: Store, name: Name) -> Result<Place, Answer>
    ensures { result ≡ find_told (model store) name.0 }
{
    asking::find(store.state, name)
}

// What a read of the same arguments answers.
pub fn read_answer<'a>(store: Store, area: &'a [u8], blank: &'a [u8], name: Name) -> Answer
    ensures { result ≡ read_answer (model store) (length area.now) name.0 }
{
    asking::read_answer(store.state, area, blank, name)
}

// The page of a name, as the part of the area where it lies now; on any refusal the blank page.
pub fn read<'a>(store: Store, area: &'a [u8], blank: &'a [u8], name: Name) -> &'a [u8]
    ensures bytes { result.now ≡ read_of (model store) area.now blank.now name.0 }
    ensures start { result.ref_ptr ≡ read_from (model store) (length area.now) area.entry.ref_ptr blank.entry.ref_ptr name.0 }
{
    asking::read(store.state, area, blank, name)
}

// The footprint: F at rest, the end of overflow in a flush.
pub fn footprint(store: Store) -> Result<u32, Answer>
    ensures { result ≡ told_of (model store) (footprint_of (model store)) }
{
    asking::footprint(store.state)
}

// The live volume.
pub fn volume(store: Store) -> Result<u32, Answer>
    ensures { result ≡ told_of (model store) (volume_held (model store)) }
{
    asking::volume(store.state)
}

// Whether a checkpoint is due.
pub fn due(store: Store) -> Result<bool, Answer>
    ensures { result ≡ checkpoint_of (model store) }
{
    asking::due(store.state)
}
