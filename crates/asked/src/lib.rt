// The questions about what the tables name and hold, which every step is put first.
#![tactic(auto)]

ghost use Rattle.std.specs.Prelude.{◌≡◌, OnOk};
ghost use Rattle.std.specs.Result.{result_err};
ghost use Rattle.questions.specs.Asking.{first_no};
ghost use Rattle.rules.specs.Functions.{within};
ghost use Rattle.rules.specs.Asking.{lengths_right, shape_questions, common};
ghost use Rattle.rules.specs.Opening.{asked_sizes};
ghost use Rattle.tables.specs.View.{view};
ghost use Rattle.tables.specs.Shape.{Shaped, Asked};

use rules::{HouseFault, Numbers};
use tables::Tables;
use tally::Tally;

mod handsets;
mod roll;
mod shaped;
mod stations;

use shaped::ShapedTables;

// Is a number at least the one given and at most the other?
fn within(low: u16, high: u16, n: u16) -> bool
    ensures { result ≡ within low high n }
{
    (low..=high).contains(&n)
}

// Have the tables the lengths that these numbers say?
fn lengths_right<T: Tally, B>(tables: &Tables<'_, T, B>, numbers: Numbers) -> bool
    ensures { result ≡ lengths_right (asked_sizes (view T.Tally.counts tables.now) numbers) }
{
    tables.stations.len() == usize::from(numbers.stations)
        && tables.handsets.len() == usize::from(numbers.handsets)
        && tables.roll.len() == usize::from(numbers.rows)
        && tables.unread.len() == usize::from(numbers.handsets) * usize::from(numbers.places)
        && tables.back.len() == usize::from(numbers.handsets) * usize::from(numbers.places)
        && tables.notices.len() == usize::from(numbers.stations) * usize::from(numbers.handsets)
}

// The questions about the numbers of a house and the lengths of its tables; the numbers are those that are asked for.
pub fn shape<T: Tally, B>(tables: &Tables<'_, T, B>, numbers: Numbers) -> Result<(), HouseFault>
    ensures is { result_err result ≡ first_no (shape_questions (asked_sizes (view T.Tally.counts tables.now) numbers)) }
    ensures facts { OnOk result (Shaped (asked_sizes (view T.Tally.counts tables.now) numbers)) }
{
    if !within(1, 8, numbers.stations) {
        return Err(HouseFault::Stations);
    }
    if !within(1, 32, numbers.handsets) {
        return Err(HouseFault::Handsets);
    }
    if !within(1, 4096, numbers.rows) {
        return Err(HouseFault::Rows);
    }
    if !within(2, 64, numbers.places) {
        return Err(HouseFault::Places);
    }
    if !lengths_right(tables, numbers) {
        return Err(HouseFault::Lengths);
    }
    Ok(())
}

// The questions that every step is put first: about the numbers, the lengths, and what the tables name and hold.
pub fn asked<T: Tally, B>(tables: &Tables<'_, T, B>) -> Result<(), HouseFault>
    ensures is { result_err result ≡ common (view T.Tally.counts tables.now) }
    ensures facts { OnOk result (Asked (view T.Tally.counts tables.now)) }
{
    shape(tables, tables.head.numbers)?;
    if !(ShapedTables { tables }).sound() {
        return Err(HouseFault::Tables);
    }
    Ok(())
}
