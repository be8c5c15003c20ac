ghost use Rattle.std.specs.Prelude.{◌≡◌, true};
ghost use Rattle.packet.specs.Heads.{in_range};

use crate::head::Head;

// A message without a stage: what a packet carries. Its numbers are in range, so that it can always be packed.
#[derive(Debug, Drop)]
pub struct Message<T, B> {
    pub(crate) head: Head,
    pub(crate) tag: T,
    pub(crate) body: B,
    ghost ranged: { in_range head ≡ true },
}
