// Short lists: a few elements that lie in the value itself, with no heap, and are copied with it.
#![tactic(auto)]

ghost use Rattle.std.specs.Prelude.{◌≡◌, ℕ, ◌+◌, ◌-◌, ◌<◌, ◌≤◌, [], ◌∷◌, ◌++◌, if◌then◌else◌, length, replicate, take, drop, Some, None, MatchResult, MatchOption, OnOk, OnErr, slice_set, insert};
ghost use Rattle.shortlist.specs.Items.{items, rest, adding};

mod list;

pub use list::ShortList;

// Why nothing is put in: every place is taken.
#[derive(Clone, Copy, Debug, PartialEq, Eq)]
pub struct ListFull;

// Puts an element in at a position of the first `len`, and moves the later ones on.
fn put_in<T: Copy>(places: &mut [T], len: usize, at: usize, x: T)
    requires within { at ≤ len }
    requires room { len < length places.old }
    ensures { take (len + 1) places.new ≡ take at (take len places.old) ++ (x ∷ drop at (take len places.old)) }
{
    places[len] = x;
    places[at..len + 1].rotate_right(1);
}

impl<T: Copy, const N: usize> ShortList<T, N> {
    // The empty list; its places hold a given element.
    pub fn new(blank: T) -> Self
        ensures holds { items result ≡ [] }
        ensures blank { rest result ≡ replicate N blank }
    {
        ShortList {
            places: [blank; N],
            len: 0,
        }
    }

    // A list of some elements, where there are places for them; the others hold a given element.
    pub fn from_slice(xs: &[T], blank: T) -> Option<Self>
        ensures { MatchOption result (N < length xs.now)
            (λ l. (items l ≡ xs.now) × (rest l ≡ replicate (N - length xs.now) blank)) }
    {
        if xs.len() > N {
            return None;
        }
        let mut places = [blank; N];
        places[..xs.len()].copy_from_slice(xs);
        Some(ShortList {
            places,
            len: xs.len(),
        })
    }

    pub fn as_slice(&self) -> &[T]
        ensures { result.now ≡ items self.now }
    {
        &self.places[..self.len]
    }

    pub fn len(&self) -> usize
        ensures { result ≡ length (items self.now) }
    {
        self.as_slice().len()
    }

    // Puts an element in at a position, and moves the later ones on. It is refused exactly where every place is taken, and
    // then the list stays as it is; a position past the end is the end.
    pub fn insert(&mut self, at: usize, x: T) -> Result<(), ListFull>
        ensures answers { result ≡ adding N (items self.old) }
        ensures ok { OnOk result (items self.new ≡ take at (items self.old) ++ x ∷ drop at (items self.old)) }
        ensures err { OnErr result (self.new ≡ self.old) }
    {
        if self.len == N {
            return Err(ListFull);
        }
        put_in(&mut self.places, self.len, usize::min(at, self.len), x);
        self.len += 1;
        Ok(())
    }

    // Puts an element at the end.
    pub fn push(&mut self, x: T) -> Result<(), ListFull>
        ensures answers { result ≡ adding N (items self.old) }
        ensures ok { OnOk result (items self.new ≡ items self.old ++ x ∷ []) }
        ensures err { OnErr result (self.new ≡ self.old) }
    {
        if self.len == N {
            return Err(ListFull);
        }
        self.places[self.len] = x;
        self.len += 1;
        Ok(())
    }

    // Replaces the element at a position; past the end nothing changes.
    pub fn set(&mut self, at: usize, x: T)
        ensures { items self.new ≡ slice_set (items self.old) at x }
    {
        if at < self.len {
            self.places[at] = x;
        }
    }
}
