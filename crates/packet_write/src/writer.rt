// A buffer that is written from the front.
ghost use Rattle.std.specs.Prelude.{◌+◌, ◌≤◌, length};
ghost use Rattle.packet_write.specs.Writing.{Puts};

// A buffer, and the place up to which it is written.
#[derive(Drop)]
pub struct Writer<'a> {
    pub(crate) out: &'a mut [u8],
    pub(crate) place: usize,
}

impl Writer<'_> {
    // Writes some bytes, and goes past them.
    pub(crate) fn put(&mut self, bytes: &[u8])
        requires { self.old.place + length bytes.now ≤ length self.old.out.now }
        ensures { Puts self.old self.new bytes.now }
    {
        let from = self.place;
        self.place = from + bytes.len();
        self.out[from..self.place].copy_from_slice(bytes);
    }
}
