// What the handsets' rows, their unread lists and their back lists may name and hold.
ghost use Rattle.std.specs.Prelude.{◌≡◌, ◌<◌, nat_le};
ghost use Rattle.rules.specs.Functions.{all_below};
ghost use Rattle.rules.specs.Sound.{on, book, place_in, names_sound, handset_sound};

use crate::shaped::ShapedTables;
use rules::Place;
use tally::Tally;

// Does a handset's place name stations of the house?
fn place_in(place: Place, stations: u16) -> bool
    ensures { result ≡ place_in stations place }
{
    match place {
        Place::Kept { station } => u16::from(station) < stations,
        Place::Leaving { from, to } | Place::OnWay { from, to } => u16::from(from) < stations
            && u16::from(to) < stations,
    }
}

impl<T: Tally, B> ShapedTables<'_, '_, T, B> {
    ghost use Rattle.tables.specs.View.{view};

    // Are the names in use, and their messages to the handset?
    fn names_sound(&self, handset: u16, names: &[u16]) -> bool
        ensures { result ≡ names_sound (view T.Tally.counts self.now.tables.now) handset names.now }
    {
        names.iter().all(|name| {
            *name < self.tables.head.used && u16::from(self.tables.addressee(*name)) == handset
        })
    }

    // How many messages a handset's book holds.
    fn book_length(&self, handset: u16) -> u32
        ensures { result ≡ book (view T.Tally.counts self.now.tables.now) handset }
    {
        u32::from(self.tables.unread_length(handset)) + u32::from(self.tables.back_length(handset))
    }

    // Is a handset's handed count of every station at most 4,096?
    fn handed_few(&self, handset: u16) -> bool
        ensures { result ≡ all_below (λ i. nat_le ((view T.Tally.counts self.now.tables.now).handed (on i handset)) 4096) self.now.tables.now.head.now.numbers.stations }
    {
        let stations = self.tables.head.numbers.stations;
        (0..stations).all(|station| self.tables.handed(station, handset) <= 4096)
    }

    // Does a handset's place name stations of the house, does its book hold at most as many as it has places, are its
    // lists sound, and its handed counts at most 4,096?
    fn handset_sound(&self, handset: u16) -> bool
        requires { handset < self.now.tables.now.head.now.numbers.handsets }
        ensures { result ≡ handset_sound (view T.Tally.counts self.now.tables.now) handset }
    {
        let numbers = self.tables.head.numbers;
        place_in(self.tables.place(handset), numbers.stations)
            && self.book_length(handset) <= u32::from(numbers.places)
            && self.names_sound(handset, self.tables.unread(handset).unwrap())
            && self.names_sound(handset, self.tables.back(handset).unwrap())
            && self.handed_few(handset)
    }

    // Is every handset's row sound?
    pub(crate) fn handsets_sound(&self) -> bool
        ensures { result ≡ all_below (handset_sound (view T.Tally.counts self.now.tables.now)) self.now.tables.now.head.now.numbers.handsets }
    {
        (0..self.tables.head.numbers.handsets).all(|handset| self.handset_sound(handset))
    }
}
