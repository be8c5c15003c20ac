// Writers of single entries: each changes one column of what the tables say, and nothing else. A row is written by its
// index, since no clause of a slice's `get_mut` says what the slice ends as; that the row is there is what an index asks, and
// no shorter by another name. An index is widened with `as`: after `usize::from` the check does not find the row in memory.
ghost use Rattle.std.specs.Prelude.{◌≡◌, ℕ, suc, ◌<◌, length, Some};
ghost use Rattle.tally.specs.Counts.{raised};
ghost use Rattle.rules.specs.Functions.{updated};
ghost use Rattle.rules.specs.Sound.{on};
ghost use Rattle.rules.specs.Changes.{with_counts, with_passed, with_place, with_handed, with_carried, with_stage};
ghost use Rattle.tables.specs.View.{view};

use rules::{Place, Stage};
use tables::Tables;
use tally::Tally;

// A handset is at another place.
pub(crate) fn set_place<T: Tally, B: Copy>(
    tables: &mut Tables<'_, T, B>,
    handset: u16,
    place: Place,
)
    requires { handset < length tables.old.handsets.now }
    ensures { let was = view T.Tally.counts tables.old in view T.Tally.counts tables.new ≡ with_place (updated was.place handset place) was }
{
    tables.handsets[handset as usize].place = place;
}

// A handset carries another tally.
pub(crate) fn set_carried<T: Tally, B: Copy>(tables: &mut Tables<'_, T, B>, handset: u16, tally: T)
    requires { handset < length tables.old.handsets.now }
    ensures { let was = view T.Tally.counts tables.old in view T.Tally.counts tables.new ≡ with_carried (updated was.carried handset (T.Tally.counts tally)) was }
{
    tables.handsets[handset as usize].carried = tally;
}

// A station has another tally.
pub(crate) fn set_tally<T: Tally, B: Copy>(tables: &mut Tables<'_, T, B>, station: u16, tally: T)
    requires { station < length tables.old.stations.now }
    ensures { let was = view T.Tally.counts tables.old in view T.Tally.counts tables.new ≡ with_counts (updated was.counts station (T.Tally.counts tally)) was }
{
    tables.stations[station as usize].tally = tally;
}

// A station has passed a handset on to another.
pub(crate) fn set_passed<T: Tally, B: Copy>(
    tables: &mut Tables<'_, T, B>,
    station: u16,
    handset: u16,
    to: u8,
)
    requires station { station < length tables.old.stations.now }
    requires handset { handset < 32 }
    ensures { let was = view T.Tally.counts tables.old in view T.Tally.counts tables.new ≡ with_passed (updated was.passed station (updated (was.passed station) handset (Some to))) was }
{
    let row = &mut tables.stations[station as usize];
    row.passed[handset as usize] = Some(to);
}

// One more message of a station has been handed to a handset.
pub(crate) fn count_handed<T: Tally, B: Copy>(
    tables: &mut Tables<'_, T, B>,
    station: u16,
    handset: u16,
)
    requires station { station < 8 }
    requires handset { handset < length tables.old.handsets.now }
    requires few { (view T.Tally.counts tables.old).handed (on station handset) < 65535 }
    ensures { let was = view T.Tally.counts tables.old in view T.Tally.counts tables.new ≡ with_handed (raised was.handed (on station handset) (suc (was.handed (on station handset)))) was }
{
    let row = &mut tables.handsets[handset as usize];
    row.handed[station as usize] += 1;
}

// A message is at another stage.
pub(crate) fn set_stage<T: Tally, B: Copy>(tables: &mut Tables<'_, T, B>, name: u16, stage: Stage)
    requires { name < length tables.old.roll.now }
    ensures { let was = view T.Tally.counts tables.old in view T.Tally.counts tables.new ≡ with_stage (updated was.stage name stage) was }
{
    tables.roll[name as usize].stage = stage;
}
