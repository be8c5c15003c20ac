// Handsets go from station to station: registering, releasing and settling. Numbers are widened with `as`, which the check
// reads through; with `u16::from` the three proofs did not close.
ghost use Rattle.std.specs.Prelude.{◌≡◌, ℕ};
ghost use Rattle.tally.specs.Counts.{none};
ghost use Rattle.rules.specs.Steps.{register_at, release_from, settle_at};
ghost use Rattle.rules.specs.Asking.{after_settle};
ghost use Rattle.tables.specs.View.{view};
ghost use Rattle.house.specs.Ready.{Registers, Releases, Settles};

use crate::queues::{put_notice, take_notice};
use crate::writes::{set_carried, set_passed, set_place, set_tally};
use rules::{Notice, Place};
use tables::Tables;
use tally::Tally;

// The handset is leaving its keeper, which gets the notice of it.
fn leave<T: Tally, B: Copy>(tables: &mut Tables<'_, T, B>, handset: u16, station: u16, keeper: u8)
    requires { Registers (view T.Tally.counts tables.old) handset station keeper }
    ensures { view T.Tally.counts tables.new ≡ register_at keeper handset station (view T.Tally.counts tables.old) }
{
    let notice = Notice {
        handset: handset as u8,
        station: station as u8,
    };
    put_notice(tables, keeper as u16, notice);
    let place = Place::Leaving {
        from: keeper,
        to: station as u8,
    };
    set_place(tables, handset, place);
}

// The handset of the oldest notice is on its way, with the station's tally, and the station has passed it on.
fn let_go<T: Tally, B: Copy>(tables: &mut Tables<'_, T, B>, station: u16, notice: Notice, tally: T)
    requires { Releases (view T.Tally.counts tables.old) station notice (T.Tally.counts tally) }
    ensures { view T.Tally.counts tables.new ≡ release_from station notice.handset notice.station (view T.Tally.counts tables.old) }
{
    take_notice(tables, station, 0);
    set_passed(tables, station, notice.handset as u16, notice.station);
    let place = Place::OnWay {
        from: station as u8,
        to: notice.station,
    };
    set_place(tables, notice.handset as u16, place);
    set_carried(tables, notice.handset as u16, tally);
}

// The station, with a tally that has taken in what the handset carried, keeps the handset, which carries nothing now.
fn keep<T: Tally, B: Copy>(tables: &mut Tables<'_, T, B>, handset: u16, station: u8, tally: T)
    requires ready { Settles (view T.Tally.counts tables.old) handset station }
    requires joined { T.Tally.counts tally ≡ after_settle (view T.Tally.counts tables.old) station handset }
    ensures { view T.Tally.counts tables.new ≡ settle_at station handset (view T.Tally.counts tables.old) }
{
    set_tally(tables, station as u16, tally);
    set_place(tables, handset, Place::Kept { station });
    set_carried(tables, handset, T::blank());
}
