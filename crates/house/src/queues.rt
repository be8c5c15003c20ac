// The queues of the tables: a handset's unread and back lists, and a station's notices. Each has its two functions, since no
// function can lend out the part of a table and its count together; what they share is `book::Row`. That there is room, or
// something stands there, is asked, so that the answer of `put_in` and `take_in` says nothing new; that the row is there is an
// index's bound. An index is widened with `as`: after `usize::from` the check does not find that the row lies in memory.
ghost use Rattle.std.specs.Prelude.{◌≡◌, ℕ, suc, ◌-◌, ◌<◌, List, [], ◌∷◌, ◌++◌, length};
ghost use Rattle.tables.specs.View.{view};
ghost use Rattle.rules.specs.Functions.{updated};
ghost use Rattle.rules.specs.Changes.{with_notices, with_unread, with_back};
ghost use Rattle.queue.specs.Standing.{without_at};
ghost use Rattle.house.specs.Bounded.{HasRoom, Stands};

use book::Row;
use rules::Notice;
use tables::Tables;
use tally::Tally;

// Puts a name at the end of a handset's unread list.
pub(crate) fn put_unread<T: Tally, B: Copy>(tables: &mut Tables<'_, T, B>, handset: u16, name: u16)
    requires there { handset < length tables.old.handsets.now }
    requires room { let was = view T.Tally.counts tables.old in HasRoom was (was.unread handset) tables.old.head.now.numbers.places }
    ensures { let was = view T.Tally.counts tables.old in view T.Tally.counts tables.new ≡ with_unread (updated was.unread handset (was.unread handset ++ (name ∷ []))) was }
{
    let row = &mut tables.handsets[handset as usize];
    let own = Row {
        number: handset,
        width: tables.head.numbers.places,
    };
    let _ = own.put_in(&mut *tables.unread, &mut row.unread, name);
}

// Takes out what stands at a position of it.
pub(crate) fn take_unread<T: Tally, B: Copy>(tables: &mut Tables<'_, T, B>, handset: u16, at: usize)
    requires there { handset < length tables.old.handsets.now }
    requires stands { let was = view T.Tally.counts tables.old in Stands was (was.unread handset) at }
    ensures { let was = view T.Tally.counts tables.old in view T.Tally.counts tables.new ≡ with_unread (updated was.unread handset (without_at (was.unread handset) at)) was }
{
    let row = &mut tables.handsets[handset as usize];
    let own = Row {
        number: handset,
        width: tables.head.numbers.places,
    };
    let _ = own.take_in(&mut *tables.unread, &mut row.unread, at);
}

// Puts a name at the end of a handset's back list.
pub(crate) fn put_back<T: Tally, B: Copy>(tables: &mut Tables<'_, T, B>, handset: u16, name: u16)
    requires there { handset < length tables.old.handsets.now }
    requires room { let was = view T.Tally.counts tables.old in HasRoom was (was.back handset) tables.old.head.now.numbers.places }
    ensures { let was = view T.Tally.counts tables.old in view T.Tally.counts tables.new ≡ with_back (updated was.back handset (was.back handset ++ (name ∷ []))) was }
{
    let row = &mut tables.handsets[handset as usize];
    let own = Row {
        number: handset,
        width: tables.head.numbers.places,
    };
    let _ = own.put_in(&mut *tables.back, &mut row.back, name);
}

// Takes out what stands at a position of it.
pub(crate) fn take_back<T: Tally, B: Copy>(tables: &mut Tables<'_, T, B>, handset: u16, at: usize)
    requires there { handset < length tables.old.handsets.now }
    requires stands { let was = view T.Tally.counts tables.old in Stands was (was.back handset) at }
    ensures { let was = view T.Tally.counts tables.old in view T.Tally.counts tables.new ≡ with_back (updated was.back handset (without_at (was.back handset) at)) was }
{
    let row = &mut tables.handsets[handset as usize];
    let own = Row {
        number: handset,
        width: tables.head.numbers.places,
    };
    let _ = own.take_in(&mut *tables.back, &mut row.back, at);
}

// Puts a notice at the end of a station's.
pub(crate) fn put_notice<T: Tally, B: Copy>(
    tables: &mut Tables<'_, T, B>,
    station: u16,
    notice: Notice,
)
    requires there { station < length tables.old.stations.now }
    requires room { let was = view T.Tally.counts tables.old in HasRoom was (was.notices station) tables.old.head.now.numbers.handsets }
    ensures { let was = view T.Tally.counts tables.old in view T.Tally.counts tables.new ≡ with_notices (updated was.notices station (was.notices station ++ (notice ∷ []))) was }
{
    let row = &mut tables.stations[station as usize];
    let own = Row {
        number: station,
        width: tables.head.numbers.handsets,
    };
    let _ = own.put_in(&mut *tables.notices, &mut row.notices, notice);
}

// Takes out what stands at a position of them.
pub(crate) fn take_notice<T: Tally, B: Copy>(tables: &mut Tables<'_, T, B>, station: u16, at: usize)
    requires there { station < length tables.old.stations.now }
    requires stands { let was = view T.Tally.counts tables.old in Stands was (was.notices station) at }
    ensures { let was = view T.Tally.counts tables.old in view T.Tally.counts tables.new ≡ with_notices (updated was.notices station (without_at (was.notices station) at)) was }
{
    let row = &mut tables.stations[station as usize];
    let own = Row {
        number: station,
        width: tables.head.numbers.handsets,
    };
    let _ = own.take_in(&mut *tables.notices, &mut row.notices, at);
}
