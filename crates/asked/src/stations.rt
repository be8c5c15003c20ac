// What the stations' rows and their notices may name and hold.
ghost use Rattle.std.specs.Prelude.{◌≡◌, ℕ, ◌+◌, ◌<◌, length, slice_index};
ghost use Rattle.std.specs.List.{list_all};
ghost use Rattle.rules.specs.Functions.{all_below, bit, how_many};
ghost use Rattle.rules.specs.Places.{leaves};
ghost use Rattle.rules.specs.Sound.{passed_in, notice_in, station_sound};
ghost use Rattle.tables.specs.View.{places_of};

use crate::shaped::ShapedTables;
use rules::{Notice, Place};
use tables::HandsetRow;
use tally::Tally;

// One more at the station that a handset with this place is leaving. Through `get_mut` no proof closed: it leaves the
// counts unknown.
fn count_leaving(counts: &mut [u16], place: Place)
    requires { (p : ℕ) → p < length counts.old → slice_index counts.old p < 65535 }
    ensures { (p : ℕ) → p < length counts.old → slice_index counts.new p ≡ slice_index counts.old p + bit (leaves p place) }
{
    if let Place::Leaving { from, .. } = place
        && usize::from(from) < counts.len()
    {
        counts[usize::from(from)] += 1;
    }
}

// How many handsets are leaving each station, in one pass over them.
fn leaving_counts<T>(handsets: &[HandsetRow<T>]) -> [u16; 8]
    requires { length handsets.now < 65536 }
    ensures { (p : ℕ) → p < 8 → slice_index result p ≡ how_many (λ j. leaves p (places_of handsets.now j)) (length handsets.now) }
{
    let mut counts = [0; 8];
    for row in handsets {
        count_leaving(&mut counts, row.place);
    }
    counts
}

impl<T: Tally, B> ShapedTables<'_, '_, T, B> {
    ghost use Rattle.tables.specs.View.{view};

    // Has a station passed every handset to a station of the house, or to none?
    fn passed_sound(&self, station: u16) -> bool
        ensures { result ≡ all_below (λ j. passed_in self.now.tables.now.head.now.numbers.stations ((view T.Tally.counts self.now.tables.now).passed station j)) self.now.tables.now.head.now.numbers.handsets }
    {
        let numbers = self.tables.head.numbers;
        (0..numbers.handsets).all(|handset| {
            self.tables
                .passed(station, handset)
                .is_none_or(|to| u16::from(to) < numbers.stations)
        })
    }

    // Do notices name handsets and stations of the house?
    fn notices_sound(&self, notices: &[Notice]) -> bool
        ensures { result ≡ list_all (notice_in self.now.tables.now.head.now.numbers.handsets self.now.tables.now.head.now.numbers.stations) notices.now }
    {
        let numbers = self.tables.head.numbers;
        notices.iter().all(|notice| {
            u16::from(notice.handset) < numbers.handsets
                && u16::from(notice.station) < numbers.stations
        })
    }

    // Has a station at most as many notices as handsets are leaving it, has it passed handsets only to stations of the
    // house, and do its notices name handsets and stations of the house?
    fn station_sound(&self, station: u16, leaving: &[u16; 8]) -> bool
        requires station { station < self.now.tables.now.head.now.numbers.stations }
        requires leaving { (p : ℕ) → p < 8 → slice_index leaving.now p ≡ how_many (λ j. leaves p ((view T.Tally.counts self.now.tables.now).place j)) self.now.tables.now.head.now.numbers.handsets }
        ensures { result ≡ station_sound (view T.Tally.counts self.now.tables.now) station }
    {
        self.tables.notice_count(station) <= leaving[usize::from(station)]
            && self.passed_sound(station)
            && self.notices_sound(self.tables.notices(station).unwrap())
    }

    // Is every station's row sound?
    pub(crate) fn stations_sound(&self) -> bool
        ensures { result ≡ all_below (station_sound (view T.Tally.counts self.now.tables.now)) self.now.tables.now.head.now.numbers.stations }
    {
        let tables = self.tables;
        let leaving = leaving_counts(&*tables.handsets);
        (0..tables.head.numbers.stations).all(|station| self.station_sound(station, &leaving))
    }
}
