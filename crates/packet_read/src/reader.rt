ghost use Rattle.std.specs.Prelude.{◌≤◌, length};

// A place in a packet that is read from the front.
#[derive(Drop)]
pub struct Reader<'a> {
    pub(crate) packet: &'a [u8],
    pub(crate) place: usize,
    ghost within: { place ≤ length packet.now },
}
