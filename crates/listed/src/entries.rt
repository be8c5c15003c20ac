ghost use Rattle.std.specs.Prelude.{◌≡◌, true};
ghost use Rattle.shortlist.specs.Items.{items};
ghost use Rattle.tally.specs.Counts.{count_of, none_above};
ghost use Rattle.listed.specs.Entries.{InOrder};

use shortlist::ShortList;
use tally::Pair;

// A pair with its count.
pub type Entry = (Pair, u16);

// The counts that are not 0, in order of pairs: at most 96.
#[derive(Clone, Copy)]
pub struct Listed {
    pub(crate) entries: ShortList<Entry, 96>,
    ghost ordered: { InOrder (items entries) },
    ghost low: { none_above 8191 (count_of (items entries)) ≡ true },
}
