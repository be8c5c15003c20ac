// Going along the counted pairs of a tally.
ghost use Rattle.std.specs.Iterator.{YieldsFirst, item_count};
ghost use Rattle.tally.specs.Walking.{ahead};

use crate::{CountedPairs, Pair};

// The counted pairs of a tally from a pair on, in order, each with its count.
#[derive(Drop)]
pub struct Counted<'a, T> {
    pub(crate) tally: &'a T,
    pub(crate) from: Pair,
}

impl<'a, T: CountedPairs> Iterator for Counted<'a, T> {
    type Item = (Pair, u16);

    ghost next_gives = { YieldsFirst (ahead T.Tally.counts) };

    ghost remaining = { item_count (ahead T.Tally.counts) };

    fn next(&mut self) -> Option<(Pair, u16)> {
        let (pair, count) = self.tally.next_counted(self.from)?;
        self.from = pair.after();
        Some((pair, count))
    }
}
