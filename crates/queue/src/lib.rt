// One queue for elements of any kind, over places that the caller lends.
#![tactic(auto)]

ghost use Rattle.std.specs.Prelude.{◌≡◌, ℕ, ◌+◌, ◌-◌, ◌<◌, ◌≤◌, List, [], ◌∷◌, ◌++◌, length, drop, slice_set};
ghost use Rattle.std.specs.List.{slice_get};
ghost use Rattle.queue.specs.Standing.{queued, filled, without_at, with_front, putting};

// Why nothing is put: every place is taken.
#[derive(Clone, Copy, Debug, PartialEq, Eq)]
pub struct QueueFull;

// What stands in a queue is the first `len` of its places, and all of them where `len` is past the last. It stays over the
// same places, and keeps `len` itself.
#[derive(Drop)]
pub struct Queue<'a, E> {
    pub places: &'a mut [E],
    pub len: usize,
}

impl<'a, E: Copy> Queue<'a, E> {
    // What stands in it.
    pub fn as_slice(&self) -> &[E]
        ensures { result.now ≡ queued self.now }
    {
        &self.places[..usize::min(self.len, self.places.len())]
    }

    // Puts an element at the end. It is refused exactly where every place is taken, and then nothing changes.
    pub fn put(&mut self, x: E) -> Result<(), QueueFull>
        ensures same_places { self.new.places.ghost_name ≡ self.old.places.ghost_name }
        ensures answers { result ≡ putting self.old }
        ensures leaves { self.old.len < length self.old.places.now → self.new.places.now ≡ slice_set self.old.places.now self.old.len x }
        ensures counts { self.old.len < length self.old.places.now → self.new.len ≡ self.old.len + 1 }
        ensures stands { self.old.len < length self.old.places.now → queued self.new ≡ queued self.old ++ (x ∷ []) }
        ensures stays { length self.old.places.now ≤ self.old.len → (self.new.places.now ≡ self.old.places.now) × (self.new.len ≡ self.old.len) }
    {
        if self.len >= self.places.len() {
            return Err(QueueFull);
        }
        self.places[self.len] = x;
        self.len += 1;
        Ok(())
    }

    // Takes out what stands at a position, and closes up. It gives none exactly where nothing stands there, and then
    // nothing changes.
    pub fn take_at(&mut self, at: usize) -> Option<E>
        ensures same_places { self.new.places.ghost_name ≡ self.old.places.ghost_name }
        ensures answers { result ≡ slice_get (queued self.old) at }
        ensures leaves { self.new.places.now ≡ with_front (without_at (queued self.old) at) self.old.places.now }
        ensures counts { at < filled self.old → self.new.len ≡ filled self.old - 1 }
        ensures stands { queued self.new ≡ without_at (queued self.old) at }
        ensures keeps { drop self.old.len self.new.places.now ≡ drop self.old.len self.old.places.now }
        ensures stays { filled self.old ≤ at → (self.new.places.now ≡ self.old.places.now) × (self.new.len ≡ self.old.len) }
    {
        let filled = self.as_slice().len();
        let x = *self.as_slice().get(at)?;
        self.places.copy_within(at + 1..filled, at);
        self.len = filled - 1;
        Some(x)
    }

    // Takes out what stands first: `take_at` at 0, by the name that the project gives it.
    pub fn take_front(&mut self) -> Option<E>
        ensures same_places { self.new.places.ghost_name ≡ self.old.places.ghost_name }
        ensures answers { result ≡ slice_get (queued self.old) 0 }
        ensures leaves { self.new.places.now ≡ with_front (without_at (queued self.old) 0) self.old.places.now }
        ensures counts { 0 < filled self.old → self.new.len ≡ filled self.old - 1 }
        ensures stands { queued self.new ≡ without_at (queued self.old) 0 }
        ensures keeps { drop self.old.len self.new.places.now ≡ drop self.old.len self.old.places.now }
        ensures stays { filled self.old ≤ 0 → (self.new.places.now ≡ self.old.places.now) × (self.new.len ≡ self.old.len) }
    {
        self.take_at(0)
    }
}
