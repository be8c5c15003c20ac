// What every kind of tally means: how many messages each station is known to have sent to each handset.
#![tactic(auto)]

ghost use Rattle.std.specs.Prelude.{◌≡◌, ℕ, ◌≤◌, max, Bool, true, false, if◌then◌else◌, MatchBool, MatchResult};
ghost use Rattle.tally.specs.declared.pair.Pair.{Pair};
ghost use Rattle.tally.specs.Pairs.{inside, same, rank, pair_at, start, after};
ghost use Rattle.tally.specs.Counts.{Counts, none, raised, larger, counted, counted_pairs};
ghost use Rattle.tally.specs.Answers.{verdict, trying, raising, next_counted};
ghost use Rattle.tally.specs.Walking.{ahead};

mod counted;
mod pair;

pub use counted::Counted;
pub use pair::{NotRaised, Pair, Refusal};

// how many pairs are in range
pub const PAIRS: usize = 256;

// the first pair in order
pub const FIRST: Pair = Pair {
    station: 0,
    handset: 0,
};

// the largest count that any kind takes
pub const MOST: u16 = 8191;

impl Pair {
    // Is the station below 8 and the handset below 32?
    pub fn in_range(self) -> bool
        ensures { result ≡ inside self }
    {
        self.station < 8 && self.handset < 32
    }

    // The place in the order by station and then handset.
    pub fn rank(self) -> usize
        ensures { result ≡ rank self }
    {
        self.station as usize * 32 + self.handset as usize
    }

    // The place of the first pair in range at or after this one; `PAIRS` or more where there is none. No `Option`: where a
    // search begins, past the last place is a place too.
    pub fn start(self) -> usize
        ensures { result ≡ start self }
    {
        self.station as usize * 32 + usize::min(self.handset as usize, 32)
    }

    // The pair that comes next in the order, in range or not; the last is its own next. No `Option`, since the call answers
    // every pair, and after a pair in range there is always a next.
    pub fn after(self) -> Pair
        ensures { result ≡ after self }
    {
        if self.handset < u8::MAX {
            return Pair {
                station: self.station,
                handset: self.handset + 1,
            };
        }
        if self.station < u8::MAX {
            return Pair {
                station: self.station + 1,
                handset: 0,
            };
        }
        self
    }

    // The pair at a place; past the last place the order begins anew.
    pub fn at(place: usize) -> Pair
        ensures { result ≡ pair_at place }
    {
        Pair {
            station: (place / 32 % 8) as u8,
            handset: (place % 32) as u8,
        }
    }
}

// The count of the pair `at` once `pair` is raised to `number`.
fn raised_count(at: Pair, count: u16, pair: Pair, number: u16) -> u16
    ensures { result ≡ (if same at pair then max count number else count) }
{
    if at == pair {
        u16::max(count, number)
    } else {
        count
    }
}

// A kind of tally. It means a count for every pair in range, and two tallies are the same when their counts are:
// nothing else of a tally is promised to anyone.
pub trait Tally: Copy {
    // how many messages each station is known to have sent to each handset
    ghost counts: { Self → Counts };

    // which tables of counts fit this kind
    ghost fits: { Counts → Bool };

    // The tally that counts 0 everywhere.
    fn blank() -> Self
        ensures { counts result ≡ none };

    // The pair's count, or 0 out of range.
    fn count(&self, pair: Pair) -> u16
        ensures { result ≡ counts self.now pair };

    // Raises the pair's count to the number where that is larger, if the pair is in range and the counts then fit.
    fn try_raise(&mut self, pair: Pair, number: u16) -> Result<(), NotRaised>
        ensures answers { result ≡ trying fits (counts self.old) pair number }
        ensures leaves { MatchResult result (λ _. counts self.new ≡ raised (counts self.old) pair number) (λ _. self.new ≡ self.old) };

    // The same, with the reason where it is refused.
    fn raise(&mut self, pair: Pair, number: u16) -> Result<(), Refusal>
        ensures answers { result ≡ raising fits (counts self.old) pair number }
        ensures leaves { MatchResult result (λ _. counts self.new ≡ raised (counts self.old) pair number) (λ _. self.new ≡ self.old) }
    {
        if !pair.in_range() {
            return Err(Refusal { pair });
        }
        if self.try_raise(pair, number).is_ok() {
            return Ok(());
        }
        // The counts that it would leave are built up in order, to the first pair at which they no longer fit. Over
        // `map(Pair::at)` the loop gets no proof in a trait's body.
        let mut built = Self::blank();
        for place in 0..PAIRS {
            let at = Pair::at(place);
            let wanted = raised_count(at, self.count(at), pair, number);
            if built.try_raise(at, wanted).is_err() {
                return Err(Refusal { pair: at });
            }
        }
        unreachable()
    }

    // Leaves the larger count of the two tallies at each pair.
    fn join(&mut self, other: &Self) -> Result<(), Refusal>
        ensures answers { result ≡ verdict fits (larger (counts self.old) (counts other.now)) tt }
        ensures leaves { MatchResult result (λ _. counts self.new ≡ larger (counts self.old) (counts other.now)) (λ _. self.new ≡ self.old) };

    // a tally counts nothing out of range
    ghost outside: { (t : Self) (p : Pair) → inside p ≡ false → counts t p ≡ 0 };

    // every tally's own counts fit
    ghost own: { (t : Self) → fits (counts t) ≡ true };

    // what fits still fits with counts lowered
    ghost lowered: { (c d : Counts) → ((p : Pair) → inside p ≡ true → d p ≤ c p) → fits c ≡ true → fits d ≡ true };

    // no count above 8,191 fits
    ghost bounded: { (c : Counts) (p : Pair) → inside p ≡ true → fits c ≡ true → c p ≤ 8191 };

    // at most eight counts that are not 0, none above 4,096, fit
    ghost few: { (c : Counts) → counted c ≤ 8 → ((p : Pair) → inside p ≡ true → c p ≤ 4096) → fits c ≡ true };
}

// A kind of tally that also tells which pairs it counts, one after the other.
pub trait CountedPairs: Tally {
    // The first pair at or after `from` whose count is not 0, with that count.
    fn next_counted(&self, from: Pair) -> Option<(Pair, u16)>
        ensures { result ≡ next_counted (Self.Tally.counts self.now) from };

    // The pairs whose count is not 0, in order, each with its count.
    final fn pairs(&self) -> Counted<'_, Self>
        ensures { ahead Self.Tally.counts result ≡ counted_pairs (Self.Tally.counts self.now) }
    {
        Counted {
            tally: self,
            from: FIRST,
        }
    }

    // How many pairs have a count that is not 0.
    fn counted(&self) -> u16
        ensures { result ≡ counted (Self.Tally.counts self.now) }
    {
        // Not over `pairs`: a body that a kind may replace can't pass `Self` on to a function with this bound.
        let mut pairs = 0;
        let mut from = FIRST;
        while let Some((pair, _count)) = self.next_counted(from) {
            pairs += 1;
            from = pair.after();
        }
        pairs
    }
}
