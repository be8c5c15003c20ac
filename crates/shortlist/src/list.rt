ghost use Rattle.std.specs.Prelude.{◌≡◌, ◌≤◌, length, ⊤};

use std::alloc::AllocError;

// At most `N` elements: the first `len` places.
#[derive(Copy)]
pub struct ShortList<T, const N: usize> {
    pub(crate) places: [T; N],
    pub(crate) len: usize,
    ghost sized: { length places ≡ N },
    ghost few: { len ≤ N },
}

// By hand, since `Clone` is not derived for a generic struct with an invariant. It never fails.
impl<T: Copy, const N: usize> Clone for ShortList<T, N> {
    ghost is_clone = { λ a b. b ≡ a };

    ghost is_infallible = { λ _. ⊤ };

    fn clone(&self) -> Result<Self, AllocError> {
        Ok(*self)
    }
}
