// Notes as bodies.
ghost use Rattle.std.specs.Prelude.{◌≡◌, ℕ, ◌-◌, ◌≤◌, ◌&&◌, ◌++◌, length, replicate, nat_le};
ghost use Rattle.body.specs.Printable.{printable, note_lawful};
ghost use Rattle.body.specs.Notes.{note_bytes};
ghost use Rattle.body.specs.Laws.{told_short, told_lawful, told_once};
ghost use Rattle.std.proofs.Common.{rules};

use crate::note::Note;
use crate::{Body, ShortBuffer, write_over};
use shortlist::ShortList;

// the number of this kind of body
const KIND: u8 = 2;

// Is every byte from 32 to 126?
fn all_printable(told: &[u8]) -> bool
    ensures { result ≡ printable told.now }
{
    told.iter().all(|b| matches!(b, b' '..=b'~'))
}

impl Note {
    // The note's bytes.
    pub fn text(&self) -> &[u8]
        ensures { result.now ≡ note_bytes self.now }
    {
        self.text.as_slice()
    }
}

impl Body for Note {
    ghost kind = { 2 };

    ghost bytes = { note_bytes };

    ghost lawful = { note_lawful };

    ghost ranged = { Prim.search rules };

    ghost short = { told_short };

    ghost own = { told_lawful };

    ghost one = { told_once };

    fn kind() -> u8 {
        KIND
    }

    fn size(&self) -> u8 {
        self.text.len() as u8
    }

    fn write(&self, out: &mut [u8]) -> Result<(), ShortBuffer> {
        write_over(self.text(), out)
    }

    fn read(told: &[u8]) -> Option<Note> {
        // The length comes first, so that no more than 24 bytes are ever gone through.
        let text = ShortList::from_slice(told, 0)?;
        if !all_printable(told) {
            return None;
        }
        Some(Note { text })
    }
}
