ghost use Rattle.tables.specs.View.{view};
ghost use Rattle.tables.specs.Shape.{Shaped};

use tables::Tables;
use tally::Tally;

// Tables whose numbers are in range and whose lengths are right. There is no `Model` that sees them as the house that they
// say: a house holds functions, which cannot be the value of a model.
#[derive(Drop)]
pub(crate) struct ShapedTables<'a, 'b, T: Tally, B> {
    pub(crate) tables: &'a Tables<'b, T, B>,
    ghost shaped: { Shaped (view T.Tally.counts tables.now).sizes },
}

impl<T: Tally, B> ShapedTables<'_, '_, T, B> {
    ghost use Rattle.std.specs.Prelude.{◌≡◌};
    ghost use Rattle.rules.specs.Sound.{sound as soundness};
    ghost use Rattle.tables.specs.View.{view};

    // Do the tables name and hold only what they may?
    pub(crate) fn sound(&self) -> bool
        ensures { result ≡ soundness (view T.Tally.counts self.now.tables.now) }
    {
        self.tables.head.used <= self.tables.head.numbers.rows
            && self.rows_sound()
            && self.handsets_sound()
            && self.stations_sound()
    }
}
