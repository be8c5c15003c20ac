// What the rows in use may name.
ghost use Rattle.std.specs.Prelude.{◌≡◌, ◌≤◌};
ghost use Rattle.rules.specs.Functions.{all_below};
ghost use Rattle.rules.specs.Sound.{stage_in, message_sound, row_sound};
ghost use Rattle.tables.specs.View.{row_of};

use crate::shaped::ShapedTables;
use rules::{Numbers, Stage};
use tables::{Head, RollRow};
use tally::Tally;

// Does a message that is on the wire head for a station of the house?
fn stage_in(stage: Stage, stations: u16) -> bool
    ensures { result ≡ stage_in stations stage }
{
    match stage {
        Stage::Wire { heading } => u16::from(heading) < stations,
        Stage::Back | Stage::Unread | Stage::Read => true,
    }
}

// Are a message's station and handsets in the house, do the handsets differ, and does it head for a station there?
fn row_sound<T: Tally, B>(row: &RollRow<T, B>, numbers: Numbers) -> bool
    ensures { result ≡ message_sound numbers.stations numbers.handsets (row_of T.Tally.counts row.now) row.now.stage }
{
    u16::from(row.station) < numbers.stations
        && u16::from(row.sender) < numbers.handsets
        && u16::from(row.addressee) < numbers.handsets
        && row.addressee != row.sender
        && stage_in(row.stage, numbers.stations)
}

impl<T: Tally, B> ShapedTables<'_, '_, T, B> {
    ghost use Rattle.tables.specs.View.{view};

    // Is every row in use sound?
    pub(crate) fn rows_sound(&self) -> bool
        requires { self.now.tables.now.head.now.used ≤ self.now.tables.now.head.now.numbers.rows }
        ensures { result ≡ all_below (row_sound (view T.Tally.counts self.now.tables.now)) self.now.tables.now.head.now.used }
    {
        let tables = self.tables;
        let Head { numbers, used } = *tables.head;
        let roll = &*tables.roll;
        roll.iter()
            .take(usize::from(used))
            .all(|row| row_sound(row, numbers))
    }
}
