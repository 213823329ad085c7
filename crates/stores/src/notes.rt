// Notes of what a trial altered, place by place, and the way back.
ghost use Rattle.std.specs.Prelude.{◌≡◌};
ghost use Rattle.stores.specs.Notes.{rewound};

use crate::types::Pair;

// What stood in a place before a change.
#[derive(Clone, Copy, PartialEq, Eq, Debug, Default)]
pub(crate) struct Note {
    pub(crate) place: usize,
    pub(crate) before: Option<Pair>,
}

// Puts back what the notes say, the newest note first: one place may have changed more than once.
pub(crate) fn rewind(places: &mut [Option<Pair>], notes: &[Note])
    ensures { places.new ≡ rewound notes.now places.old }
{
    for note in notes.iter().rev() {
        // Tested by hand: with a loan from `get_mut` the loop's invariant was tried and did not close.
        if note.place < places.len() {
            places[note.place] = note.before;
        }
    }
}
