// Parts of a station that need no other station.
#![tactic(auto)]

ghost use Rattle.std.specs.Prelude.{◌≡◌, suc, MatchResult};
ghost use Rattle.tally.specs.Counts.{raised, larger};
ghost use Rattle.tally.specs.Answers.{verdict, raising};
ghost use Rattle.station.specs.declared.fault.StationFault.TheVariants.{Counts};
ghost use Rattle.station.specs.Faults.{fault_number, fault_pair, carried};
ghost use Rattle.station.specs.Taking.{taken_in, taking_in};

use tally::{Pair, Refusal, Tally};

mod fault;

pub use fault::StationFault;

impl From<Refusal> for StationFault {
    ghost from_gives = { λ r f. f ≡ Counts r };

    fn from(refusal: Refusal) -> StationFault {
        StationFault::Counts(refusal)
    }
}

impl StationFault {
    // The refusal's number, which the product fixes.
    pub fn number(self) -> u8
        ensures { result ≡ fault_number self }
    {
        match self {
            StationFault::Counts(_) => 21,
        }
    }

    // The pair that the tally named.
    pub fn pair(self) -> Pair
        ensures { result ≡ fault_pair self }
    {
        match self {
            StationFault::Counts(named) => named.pair,
        }
    }
}

// Raises a pair's count in a tally of the station's.
pub fn raise<T: Tally>(tally: &mut T, pair: Pair, number: u16) -> Result<(), StationFault>
    ensures answers { result ≡ carried (raising T.fits (T.counts tally.old) pair number) }
    ensures leaves { MatchResult result (λ _. T.counts tally.new ≡ raised (T.counts tally.old) pair number) (λ _. tally.new ≡ tally.old) }
{
    Ok(tally.raise(pair, number)?)
}

// Leaves the larger count of a tally of the station's and another at each pair.
pub fn join<T: Tally>(tally: &mut T, other: &T) -> Result<(), StationFault>
    ensures answers { result ≡ carried (verdict T.fits (larger (T.counts tally.old) (T.counts other.now)) tt) }
    ensures leaves { MatchResult result (λ _. T.counts tally.new ≡ larger (T.counts tally.old) (T.counts other.now)) (λ _. tally.new ≡ tally.old) }
{
    Ok(tally.join(other)?)
}

// One more than a tag counts of a pair.
fn next_of<T: Tally>(tag: &T, pair: Pair) -> u16
    ensures { result ≡ suc (T.counts tag.now pair) }
{
    tag.count(pair) + 1
}

// Takes in a message that is read: joins its tag and counts the message itself, as the next of its pair after those that
// the tag counts. A refusal leaves the tally as it was.
pub fn take_in<T: Tally>(tally: &mut T, tag: &T, pair: Pair) -> Result<(), StationFault>
    ensures answers { result ≡ taking_in T.fits (T.counts tally.old) (T.counts tag.now) pair }
    ensures leaves { MatchResult result (λ _. T.counts tally.new ≡ taken_in (T.counts tally.old) (T.counts tag.now) pair) (λ _. tally.new ≡ tally.old) }
{
    let mut next = *tally;
    join(&mut next, tag)?;
    raise(&mut next, pair, next_of(tag, pair))?;
    *tally = next;
    Ok(())
}
