// The kind of tally that keeps a count for every pair.
#![tactic(auto)]

ghost use Rattle.std.specs.Prelude.{◌≡◌, ℕ, ◌<◌, ◌≤◌, max, not, ◌==◌, slice_index};
ghost use Rattle.std.specs.List.{position};
ghost use Rattle.full.specs.Cells.{of_cells, place_of, full_fits};
ghost use Rattle.full.specs.Laws.{cells_fit, few_fit, no_cell};
ghost use Rattle.tally.proofs.Bounds.{bounded_lowered, bounded_at, bounded_from};

use tally::{CountedPairs, MOST, NotRaised, PAIRS, Pair, Refusal, Tally};

mod cells;

pub use cells::Full;

// the place at which each station's row of cells starts; the project fixes this table
const STARTS: [usize; 8] = [0, 32, 64, 96, 128, 160, 192, 224];

// The place of a pair's cell; a pair out of range has none.
fn place(pair: Pair) -> Option<usize>
    ensures { result ≡ place_of pair }
{
    pair.in_range()
        .then(|| STARTS[pair.station as usize] + pair.handset as usize)
}

// Leaves the larger of two cells at each place. Over `zip` no proof closed: what it has written stays unknown.
fn join_cells(cells: &mut [u16; 256], others: &[u16; 256])
    ensures { (k : ℕ) → k < 256 → slice_index cells.new k ≡ max (slice_index cells.old k) (slice_index others.now k) }
{
    for (place, cell) in cells.iter_mut().enumerate() {
        *cell = u16::max(*cell, others[place]);
    }
}

// The place of the first cell that counts.
fn first_counted(cells: &[u16]) -> Option<usize>
    ensures { result ≡ position (λ n. not (n == 0)) cells.now }
{
    cells.iter().position(|count| *count != 0)
}

impl Tally for Full {
    ghost counts = { λ t. of_cells t.cells };

    ghost fits = { full_fits };

    ghost outside = { λ t p o. no_cell t.cells p o };

    ghost own = { λ t. cells_fit t.cells t.low };

    ghost lowered = { bounded_lowered 8191 };

    ghost bounded = { λ c p i h. bounded_at 8191 c h p i };

    ghost few = { few_fit };

    fn blank() -> Full {
        Full { cells: [0; 256] }
    }

    fn count(&self, pair: Pair) -> u16 {
        place(pair).map_or(0, |at| self.cells[at])
    }

    fn try_raise(&mut self, pair: Pair, number: u16) -> Result<(), NotRaised> {
        let at = place(pair).ok_or(NotRaised)?;
        if number > MOST {
            return Err(NotRaised);
        }
        self.cells[at] = u16::max(self.cells[at], number);
        Ok(())
    }

    // Two full tallies always fit together.
    fn join(&mut self, other: &Full) -> Result<(), Refusal> {
        join_cells(&mut self.cells, &other.cells);
        Ok(())
    }
}

impl CountedPairs for Full {
    fn next_counted(&self, from: Pair) -> Option<(Pair, u16)> {
        let start = usize::min(from.start(), PAIRS);
        let at = start + first_counted(&self.cells[start..])?;
        Some((Pair::at(at), self.cells[at]))
    }
}
