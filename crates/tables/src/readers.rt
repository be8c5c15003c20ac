// Readers of the rows of one table. They read that table alone, of any kind of tally, also while other tables are lent.
// Like the tables themselves they answer every number, past the table's end as a newly opened house would.
// A blank tally is made only where a row is missing, in an arm of a `match`: the check covers no `map_or_else` that is
// passed `T::blank`.

ghost use Rattle.std.specs.Prelude.{◌≡◌, ℕ, if◌then◌else◌, None, nat_lt};
ghost use Rattle.rules.specs.Sound.{on};
ghost use Rattle.tables.specs.View.{counts_of, notice_lengths, passed_of, places_of, handed_of, carried_of, unread_lengths, back_lengths, rows_of, stages_of};

use crate::rows::{HandsetRow, RollRow, StationRow};
use rules::{Place, Stage};
use tally::Tally;

// Where a handset is.
pub fn place_of<T>(handsets: &[HandsetRow<T>], handset: u16) -> Place
    ensures { result ≡ places_of handsets.now handset }
{
    handsets
        .get(usize::from(handset))
        .map_or(Place::Kept { station: 0 }, |row| row.place)
}

// How many messages of a station have been handed to a handset; a row has counts for eight stations.
pub fn handed_of<T: Copy>(handsets: &[HandsetRow<T>], station: u16, handset: u16) -> u16
    ensures is { result ≡ (if nat_lt station 8 then handed_of handsets.now (on station handset) else 0) }
    ensures column { result ≡ handed_of handsets.now (on station handset) }
{
    handsets
        .get(usize::from(handset))
        .and_then(|row| row.handed.get(usize::from(station)))
        .copied()
        .unwrap_or(0)
}

// The tally that a handset carries.
pub fn carried_of<T: Tally>(handsets: &[HandsetRow<T>], handset: u16) -> T
    ensures { T.Tally.counts result ≡ carried_of T.Tally.counts handsets.now handset }
{
    match handsets.get(usize::from(handset)) {
        Some(row) => row.carried,
        None => T::blank(),
    }
}

// How many messages of a handset's book are unread.
pub fn unread_length<T>(handsets: &[HandsetRow<T>], handset: u16) -> u16
    ensures { result ≡ unread_lengths handsets.now handset }
{
    handsets
        .get(usize::from(handset))
        .map_or(0, |row| row.unread)
}

// How many stand back.
pub fn back_length<T>(handsets: &[HandsetRow<T>], handset: u16) -> u16
    ensures { result ≡ back_lengths handsets.now handset }
{
    handsets.get(usize::from(handset)).map_or(0, |row| row.back)
}

// A station's tally.
pub fn tally_of<T: Tally>(stations: &[StationRow<T>], station: u16) -> T
    ensures { T.Tally.counts result ≡ counts_of T.Tally.counts stations.now station }
{
    match stations.get(usize::from(station)) {
        Some(row) => row.tally,
        None => T::blank(),
    }
}

// How many notices a station has.
pub fn notice_count<T>(stations: &[StationRow<T>], station: u16) -> u16
    ensures { result ≡ notice_lengths stations.now station }
{
    stations
        .get(usize::from(station))
        .map_or(0, |row| row.notices)
}

// The station to which a station last passed a handset on; a row has entries for 32 handsets.
pub fn passed_of<T: Copy>(stations: &[StationRow<T>], station: u16, handset: u16) -> Option<u8>
    ensures is { result ≡ (if nat_lt handset 32 then passed_of stations.now station handset else None) }
    ensures column { result ≡ passed_of stations.now station handset }
{
    stations
        .get(usize::from(station))
        .and_then(|row| row.passed.get(usize::from(handset)))
        .copied()
        .flatten()
}

// Where a message is.
pub fn stage_of<T, B>(roll: &[RollRow<T, B>], name: u16) -> Stage
    ensures { result ≡ stages_of roll.now name }
{
    roll.get(usize::from(name))
        .map_or(Stage::Wire { heading: 0 }, |row| row.stage)
}

// The station that sent a message.
pub fn station_of<T: Tally, B>(roll: &[RollRow<T, B>], name: u16) -> u8
    ensures { result ≡ (rows_of T.Tally.counts roll.now name).station }
{
    roll.get(usize::from(name)).map_or(0, |row| row.station)
}

// The handset that sent it.
pub fn sender_of<T: Tally, B>(roll: &[RollRow<T, B>], name: u16) -> u8
    ensures { result ≡ (rows_of T.Tally.counts roll.now name).sender }
{
    roll.get(usize::from(name)).map_or(0, |row| row.sender)
}

// The handset that it is addressed to.
pub fn addressee_of<T: Tally, B>(roll: &[RollRow<T, B>], name: u16) -> u8
    ensures { result ≡ (rows_of T.Tally.counts roll.now name).addressee }
{
    roll.get(usize::from(name)).map_or(0, |row| row.addressee)
}

// Its tag.
pub fn tag_of<T: Tally, B>(roll: &[RollRow<T, B>], name: u16) -> T
    ensures { T.Tally.counts result ≡ (rows_of T.Tally.counts roll.now name).tag }
{
    match roll.get(usize::from(name)) {
        Some(row) => row.tag,
        None => T::blank(),
    }
}

// Its body.
pub fn body_of<T: Tally, B: Copy>(roll: &[RollRow<T, B>], name: u16) -> Option<B>
    ensures { result ≡ (rows_of T.Tally.counts roll.now name).body }
{
    roll.get(usize::from(name)).map(|row| row.body)
}
