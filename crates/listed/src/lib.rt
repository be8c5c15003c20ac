// The kind of tally that lists the counts that are not 0.
#![tactic(auto)]

ghost use Rattle.std.specs.Prelude.{◌≡◌, ℕ, ◌+◌, ◌<◌, ◌≤◌, true, false, List, [], ◌∷◌, ◌++◌, length, take, drop, if◌then◌else◌, Err, MatchResult};
ghost use Rattle.shortlist.proofs.Items.{most_items};
ghost use Rattle.tally.specs.Pairs.{inside};
ghost use Rattle.tally.specs.Counts.{none, raised, larger, counted_pairs, count_of, none_above};
ghost use Rattle.tally.specs.Answers.{verdict};
ghost use Rattle.listed.specs.Entries.{InOrder, seek, listed_fits};
ghost use Rattle.listed.specs.Listing.{listed, sought, Sought};
ghost use Rattle.listed.specs.Merging.{front_of, merged_front, heads};
ghost use Rattle.listed.specs.Laws.{few_fit, fits_bounded, fits_lowered, in_order_fits, in_order_ranged};

use shortlist::ShortList;
use std::cmp::Ordering;
use tally::{CountedPairs, FIRST, MOST, NotRaised, Pair, Refusal, Tally};

mod entries;

use entries::Entry;
pub use entries::Listed;

// Of two entries the one whose pair comes first, or both in one, with the larger count.
fn earlier(x: Entry, y: Entry) -> Entry
    ensures { result ≡ front_of x y }
{
    match x.0.rank().cmp(&y.0.rank()) {
        Ordering::Less => x,
        Ordering::Greater => y,
        Ordering::Equal => (x.0, u16::max(x.1, y.1)),
    }
}

// The entry with which two lists merged in order begin.
fn front(a: &[Entry], b: &[Entry]) -> Option<Entry>
    ensures { result ≡ merged_front a.now b.now }
{
    match (a, b) {
        ([x, ..], [y, ..]) => Some(earlier(*x, *y)),
        ([x, ..], []) | ([], [x, ..]) => Some(*x),
        ([], []) => None,
    }
}

// A list without its first entry where that counts the pair.
fn past(list: &[Entry], pair: Pair) -> &[Entry]
    ensures { result.now ≡ (if heads pair list.now then drop 1 list.now else list.now) }
{
    match list {
        [first, rest @ ..] if first.0 == pair => rest,
        _ => list,
    }
}

// Merges two tallies into a blank one, with the larger count where both count a pair. It is refused at the first pair for
// which there is no place.
fn merge(first: &Listed, second: &Listed, merged: &mut Listed) -> Result<(), Refusal>
    requires { count_of (listed merged.old) ≡ none }
    ensures { MatchResult result
        (λ _. listed merged.new ≡ counted_pairs (larger (count_of (listed first.now)) (count_of (listed second.now))))
        (λ e. Err e ≡ verdict {A = Unit {0}} listed_fits (larger (count_of (listed first.now)) (count_of (listed second.now))) tt) }
{
    let mut a = first.list();
    let mut b = second.list();
    while let Some(entry) = front(a, b) {
        merged.push(entry)?;
        a = past(a, entry.0);
        b = past(b, entry.0);
    }
    Ok(())
}

impl Listed {
    // The entries that count.
    fn list(&self) -> &[Entry]
        ensures { result.now ≡ listed self.now }
    {
        self.entries.as_slice()
    }

    // How many entries stand before a place of the order.
    fn position(&self, rank: usize) -> usize
        ensures { result ≡ seek rank (listed self.now) }
    {
        self.list().partition_point(|entry| entry.0.rank() < rank)
    }

    // Where the entry of a pair in range stands or, where there is none, would stand.
    fn search(&self, pair: Pair) -> Result<usize, usize>
        requires { inside pair ≡ true }
        ensures { result ≡ sought (listed self.now) pair }
    {
        self.list()
            .binary_search_by_key(&pair.rank(), |entry| entry.0.rank())
    }

    // Raises the count of a pair whose entry stands at its position.
    fn raise_at(&mut self, at: usize, pair: Pair, number: u16)
        requires sought { Sought (listed self.old) pair at }
        requires within { at < length (listed self.old) }
        requires there { heads pair (drop at (listed self.old)) ≡ true }
        requires low { number ≤ 8191 }
        ensures { count_of (listed self.new) ≡ raised (count_of (listed self.old)) pair number }
    {
        let count = self.list()[at].1;
        self.entries.set(at, (pair, u16::max(count, number)));
    }

    // Lists a pair that is not listed yet at its position, if there is a place for it.
    fn insert_at(&mut self, at: usize, pair: Pair, number: u16) -> Result<(), NotRaised>
        requires sought { Sought (listed self.old) pair at }
        requires absent { heads pair (drop at (listed self.old)) ≡ false }
        requires low { number ≤ 8191 }
        requires some { 0 < number }
        ensures { MatchResult result
            (λ _. count_of (listed self.new) ≡ raised (count_of (listed self.old)) pair number)
            (λ _. (self.new ≡ self.old) × (length (listed self.old) ≡ 96)) }
    {
        self.entries
            .insert(at, (pair, number))
            .map_err(|_full| NotRaised)
    }

    // Lists an entry behind the others, if there is a place for it.
    fn push(&mut self, entry: Entry) -> Result<(), Refusal>
        requires ordered { InOrder (listed self.old ++ entry ∷ []) }
        requires low { none_above 8191 (count_of (listed self.old ++ entry ∷ [])) ≡ true }
        ensures { MatchResult result
            (λ _. listed self.new ≡ listed self.old ++ entry ∷ [])
            (λ e. (e.pair ≡ entry.0) × (length (listed self.old) ≡ 96)) }
    {
        self.entries
            .push(entry)
            .map_err(|_full| Refusal { pair: entry.0 })
    }
}

impl Tally for Listed {
    ghost counts = { λ t. count_of (listed t) };

    ghost fits = { listed_fits };

    ghost outside = { λ t p o. in_order_ranged (listed t) t.ordered p o };

    ghost own = { λ t. in_order_fits (listed t) t.ordered t.low (most_items t.entries) };

    ghost lowered = { fits_lowered };

    ghost bounded = { fits_bounded };

    ghost few = { few_fit };

    fn blank() -> Listed {
        Listed {
            entries: ShortList::new((FIRST, 0)),
        }
    }

    fn count(&self, pair: Pair) -> u16 {
        if !pair.in_range() {
            return 0;
        }
        self.search(pair).map_or(0, |at| self.list()[at].1)
    }

    fn try_raise(&mut self, pair: Pair, number: u16) -> Result<(), NotRaised> {
        if !pair.in_range() || number > MOST {
            return Err(NotRaised);
        }
        match self.search(pair) {
            Ok(at) => self.raise_at(at, pair, number),
            Err(_) if number == 0 => {}
            Err(at) => self.insert_at(at, pair, number)?,
        }
        Ok(())
    }

    fn join(&mut self, other: &Listed) -> Result<(), Refusal> {
        let mut merged = Listed::blank();
        merge(self, other, &mut merged)?;
        *self = merged;
        Ok(())
    }
}

impl CountedPairs for Listed {
    fn next_counted(&self, from: Pair) -> Option<(Pair, u16)> {
        let at = self.position(from.start());
        self.list().get(at).copied()
    }

    fn counted(&self) -> u16 {
        self.entries.len() as u16
    }
}
