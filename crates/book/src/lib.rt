// Parts of a house that look at one handset's row and its places, or at one station's.
#![tactic(auto)]

ghost use Rattle.std.specs.Prelude.{◌≡◌, ℕ, ◌+◌, if◌then◌else◌, Ok, Err, position, slice_index};
ghost use Rattle.queue.specs.declared.QueueFull.{QueueFull as Full};
ghost use Rattle.book.specs.Ripening.{ripe_for, tag_of as tag_counts};
ghost use Rattle.book.specs.Places.{row_start, room_in, put_in, taken, take_in, left_in};

use queue::{Queue, QueueFull};
use tables::RollRow;
use tally::{Pair, Tally};

// A station's count in a row of handed counts; 0 past the row's end.
fn handed_at(handed: &[u16], station: u8) -> u16
    ensures { result ≡ slice_index handed.now station }
{
    handed.get(usize::from(station)).copied().unwrap_or(0)
}

// The place of the first ripe message among some messages to a handset, whose row has these handed counts.
pub fn first_ripe<T: Tally, B>(
    roll: &[RollRow<T, B>],
    names: &[u16],
    handed: &[u16],
    handset: u8,
    stations: u8,
) -> Option<usize>
    ensures { result ≡ position (λ m. ripe_for stations (λ i. slice_index handed.now i) handset (tag_counts T.Tally.counts roll.now m)) names.now }
{
    // the project fixes this form: the comparison of stations is left by the label at the first that falls short
    'names: for (at, name) in names.iter().enumerate() {
        let tag = tables::tag_of(roll, *name);
        for station in 0..stations {
            if handed_at(handed, station) < tag.count(Pair { station, handset }) {
                continue 'names;
            }
        }
        return Some(at);
    }
    None
}

// A row of a table of places, in which each row has the same number of places, its width. No function lends the row's
// places out, since no clause on what is lent is proved for a part of a slice; so each of the two splits them off.
#[derive(Clone, Copy)]
pub struct Row {
    pub number: u16,
    pub width: u16,
}

impl Row {
    // How many places are before its own.
    fn start(self) -> usize
        ensures { result ≡ row_start self.number self.width }
    {
        usize::from(self.number) * usize::from(self.width)
    }

    // Puts an element behind the first `len` of the row's places. It is refused where there is no room for it, and then
    // nothing changes.
    pub fn put_in<E: Copy>(self, places: &mut [E], len: &mut u16, x: E) -> Result<(), QueueFull>
        ensures answers { result ≡ (if room_in self.number self.width len.old places.old then Ok tt else Err (record {})) }
        ensures leaves { places.new ≡ put_in self.number self.width len.old x places.old }
        ensures counts { len.new ≡ (if room_in self.number self.width len.old places.old then len.old + 1 else len.old) }
    {
        let (_, rest) = places.split_at_mut_checked(self.start()).ok_or(QueueFull)?;
        let (own, _) = rest
            .split_at_mut_checked(usize::from(self.width))
            .ok_or(QueueFull)?;
        let mut queue = Queue {
            places: own,
            len: usize::from(*len),
        };
        queue.put(x)?;
        *len = queue.len as u16;
        Ok(())
    }

    // Takes out what stands at a position of the first `len` of the row's places, and closes up. It gives none where
    // nothing stands there, and then nothing changes.
    pub fn take_in<E: Copy>(self, places: &mut [E], len: &mut u16, at: usize) -> Option<E>
        ensures answers { result ≡ taken self.number self.width len.old at places.old }
        ensures leaves { places.new ≡ take_in self.number self.width len.old at places.old }
        ensures counts { len.new ≡ left_in self.number self.width len.old at places.old }
    {
        let (_, rest) = places.split_at_mut_checked(self.start())?;
        let (row, _) = rest.split_at_mut_checked(usize::from(self.width))?;
        let mut queue = Queue {
            places: row,
            len: usize::from(*len),
        };
        let x = queue.take_at(at)?;
        *len = queue.len as u16;
        Some(x)
    }
}
