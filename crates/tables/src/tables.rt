ghost use Rattle.std.specs.Prelude.{◌≡◌, ◌+◌, ◌*◌, ◌≤◌, ◌↔◌, length, IfSome, IsSome};
ghost use Rattle.tables.specs.Columns.{part};

use crate::readers::{
    addressee_of, back_length, body_of, carried_of, handed_of, notice_count, passed_of, place_of,
    sender_of, stage_of, station_of, tally_of, unread_length,
};
use crate::rows::{HandsetRow, Head, RollRow, StationRow};
use rules::{Notice, Place, Stage};
use tally::Tally;

// The tables of a house, which the caller brings. A handset's unread places begin at its number times the number of
// places a handset, its back places likewise, and a station's notice places at its number times the number of handsets. The
// project fixes these tables: memory that the caller lends, no heap, and messages named by their row of the roll.
pub struct Tables<'a, T, B> {
    pub head: &'a mut Head,
    pub stations: &'a mut [StationRow<T>],
    pub handsets: &'a mut [HandsetRow<T>],
    pub roll: &'a mut [RollRow<T, B>],
    pub unread: &'a mut [u16],
    pub back: &'a mut [u16],
    pub notices: &'a mut [Notice],
}

// The first places of a row, in a table where each row has as many; none exactly where the table has not all of them.
fn first_places<E>(places: &[E], row: u16, width: u16, filled: u16) -> Option<&[E]>
    ensures is { (d : E) → IfSome result (λ xs. xs.now ≡ part d row width filled places.now) }
    ensures there { IsSome result ↔ (row * width + filled ≤ length places.now) }
{
    let start = usize::from(row) * usize::from(width);
    places.get(start..start + usize::from(filled))
}

// Readers of single entries and of queues, one a column, since each has a clause of its own. A reader of an entry answers
// every number, past a table's end as a newly opened house would: so the rules need no word for a row that is not there.
impl<T: Tally, B> Tables<'_, T, B> {
    ghost use Rattle.std.specs.Prelude.{◌≡◌, ℕ, ◌+◌, ◌*◌, ◌≤◌, ◌↔◌, length, None, IfSome, IsSome};
    ghost use Rattle.rules.specs.Sound.{on};
    ghost use Rattle.tables.specs.View.{view};

    // Where a handset is.
    pub fn place(&self, handset: u16) -> Place
        ensures { result ≡ (view T.Tally.counts self.now).place handset }
    {
        place_of(self.handsets, handset)
    }

    // How many messages of a station have been handed to a handset; a row has counts for eight stations.
    pub fn handed(&self, station: u16, handset: u16) -> u16
        ensures is { result ≡ (view T.Tally.counts self.now).handed (on station handset) }
        ensures past { 8 ≤ station → result ≡ 0 }
    {
        handed_of(self.handsets, station, handset)
    }

    // The tally that a handset carries.
    pub fn carried(&self, handset: u16) -> T
        ensures { T.Tally.counts result ≡ (view T.Tally.counts self.now).carried handset }
    {
        carried_of(self.handsets, handset)
    }

    // How many messages of a handset's book are unread.
    pub fn unread_length(&self, handset: u16) -> u16
        ensures { result ≡ length ((view T.Tally.counts self.now).unread handset) }
    {
        unread_length(self.handsets, handset)
    }

    // A handset's unread list; none exactly where the table has not all its places.
    pub fn unread(&self, handset: u16) -> Option<&[u16]>
        ensures is { IfSome result (λ names. names.now ≡ (view T.Tally.counts self.now).unread handset) }
        ensures there { IsSome result ↔ (handset * self.now.head.now.numbers.places + length ((view T.Tally.counts self.now).unread handset) ≤ length self.now.unread.now) }
    {
        let filled = self.unread_length(handset);
        first_places(self.unread, handset, self.head.numbers.places, filled)
    }

    // How many messages of its book stand back.
    pub fn back_length(&self, handset: u16) -> u16
        ensures { result ≡ length ((view T.Tally.counts self.now).back handset) }
    {
        back_length(self.handsets, handset)
    }

    // A handset's back list; none exactly where the table has not all its places.
    pub fn back(&self, handset: u16) -> Option<&[u16]>
        ensures is { IfSome result (λ names. names.now ≡ (view T.Tally.counts self.now).back handset) }
        ensures there { IsSome result ↔ (handset * self.now.head.now.numbers.places + length ((view T.Tally.counts self.now).back handset) ≤ length self.now.back.now) }
    {
        let filled = self.back_length(handset);
        first_places(self.back, handset, self.head.numbers.places, filled)
    }

    // A station's tally.
    pub fn tally(&self, station: u16) -> T
        ensures { T.Tally.counts result ≡ (view T.Tally.counts self.now).counts station }
    {
        tally_of(self.stations, station)
    }

    // How many notices a station has.
    pub fn notice_count(&self, station: u16) -> u16
        ensures { result ≡ length ((view T.Tally.counts self.now).notices station) }
    {
        notice_count(self.stations, station)
    }

    // A station's notices; none exactly where the table has not all their places.
    pub fn notices(&self, station: u16) -> Option<&[Notice]>
        ensures is { IfSome result (λ notices. notices.now ≡ (view T.Tally.counts self.now).notices station) }
        ensures there { IsSome result ↔ (station * self.now.head.now.numbers.handsets + length ((view T.Tally.counts self.now).notices station) ≤ length self.now.notices.now) }
    {
        let filled = self.notice_count(station);
        first_places(self.notices, station, self.head.numbers.handsets, filled)
    }

    // The station to which a station last passed a handset on; a row has entries for 32 handsets.
    pub fn passed(&self, station: u16, handset: u16) -> Option<u8>
        ensures is { result ≡ (view T.Tally.counts self.now).passed station handset }
        ensures past { 32 ≤ handset → result ≡ None }
    {
        passed_of(self.stations, station, handset)
    }

    // Where a message is.
    pub fn stage(&self, name: u16) -> Stage
        ensures { result ≡ (view T.Tally.counts self.now).stage name }
    {
        stage_of(self.roll, name)
    }

    // The station that sent a message.
    pub fn sending_station(&self, name: u16) -> u8
        ensures { result ≡ ((view T.Tally.counts self.now).rows name).station }
    {
        station_of(self.roll, name)
    }

    // The handset that sent it.
    pub fn sender(&self, name: u16) -> u8
        ensures { result ≡ ((view T.Tally.counts self.now).rows name).sender }
    {
        sender_of(self.roll, name)
    }

    // The handset that it is addressed to.
    pub fn addressee(&self, name: u16) -> u8
        ensures { result ≡ ((view T.Tally.counts self.now).rows name).addressee }
    {
        addressee_of(self.roll, name)
    }

    // Its body.
    pub fn body(&self, name: u16) -> Option<B>
    where
        B: Copy,
        ensures { result ≡ ((view T.Tally.counts self.now).rows name).body }
    {
        body_of(self.roll, name)
    }
}
