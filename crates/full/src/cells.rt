ghost use Rattle.std.specs.Prelude.{◌≡◌, ℕ, ◌<◌, ◌≤◌, slice_index};

// A count for every pair in range, station by station: an array, since a tally is copied and lies in tables without a heap.
#[derive(Clone, Copy)]
pub struct Full {
    pub(crate) cells: [u16; 256],
    ghost low: { (k : ℕ) → k < 256 → slice_index cells k ≤ 8191 },
}
