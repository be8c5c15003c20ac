// The rules of a house as definitions, over the calls, answers and places of the code, and the
// refusals with their numbers.
#![tactic(auto)]

ghost use Rattle.std.specs.Prelude.{◌≡◌};
ghost use Rattle.rules.specs.declared.fault.HouseFault.{HouseFault as Fault};
ghost use Rattle.rules.specs.declared.fault.HouseFault.TheVariants.{Station as FaultStation};
ghost use Rattle.rules.specs.Faults.{tells};
ghost use Rattle.rules.specs.Places.{station_of, holds};

use station::StationFault;
use tally::Pair;

mod call;
mod fault;
mod numbers;
mod place;

pub use call::{Answer, Arrived, Call, Granted};
pub use fault::HouseFault;
pub use numbers::Numbers;
pub use place::{Notice, Place, Stage};

impl From<StationFault> for HouseFault {
    ghost from_gives = { λ f h. h ≡ FaultStation f };

    fn from(refusal: StationFault) -> HouseFault {
        HouseFault::Station(refusal)
    }
}

impl HouseFault {
    // The refusal's number, which the project fixes. What refusals tell is never the same of two of them.
    pub fn number(self) -> u8
        ensures is { result ≡ (tells self).number }
        ensures told_apart { (other : Fault) → tells other ≡ tells self → other ≡ self }
    {
        match self {
            HouseFault::Stations => 1,
            HouseFault::Handsets => 2,
            HouseFault::Rows => 3,
            HouseFault::Places => 4,
            HouseFault::Lengths => 5,
            HouseFault::StartList => 6,
            HouseFault::Tables => 7,
            HouseFault::NoHandset => 8,
            HouseFault::NoStation => 9,
            HouseFault::NoMessage => 10,
            HouseFault::ToItself => 11,
            HouseFault::NotKept => 12,
            HouseFault::SameStation => 13,
            HouseFault::NoRow => 14,
            HouseFault::NotOnWire => 15,
            HouseFault::NotHeld => 16,
            HouseFault::BookFull => 17,
            HouseFault::NothingUnread => 18,
            HouseFault::NoNotice => 19,
            HouseFault::NotOnWay => 20,
            HouseFault::Station(fault) => fault.number(),
        }
    }

    // The pair that the tally named, where a tally is the reason.
    pub fn pair(self) -> Option<Pair>
        ensures { result ≡ (tells self).pair }
    {
        match self {
            HouseFault::Station(fault) => Some(fault.pair()),
            _ => None,
        }
    }
}

impl Place {
    // The station that holds the handset or, where it is on its way, to which it goes.
    pub fn station(self) -> u8
        ensures { result ≡ station_of self }
    {
        match self {
            Place::Kept { station } => station,
            Place::Leaving { from, to: _ } => from,
            Place::OnWay { from: _, to } => to,
        }
    }

    // Does a station hold the handset: does it keep it, or is the handset leaving it?
    pub fn is_held_by(self, station: u8) -> bool
        ensures { result ≡ holds station self }
    {
        match self {
            Place::Kept { station: keeper } => station == keeper,
            Place::Leaving { from, to: _ } => station == from,
            Place::OnWay { from: _, to: _ } => false,
        }
    }
}
