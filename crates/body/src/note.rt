ghost use Rattle.std.specs.Prelude.{◌≡◌, ◌-◌, true, length, replicate};
ghost use Rattle.shortlist.specs.Items.{items, rest};
ghost use Rattle.body.specs.Printable.{printable};

use shortlist::ShortList;

// A note of at most 24 printable bytes. What lies past them is 0, so that notes that tell the same bytes are one.
#[derive(Clone, Copy)]
pub struct Note {
    pub(crate) text: ShortList<u8, 24>,
    ghost plain: { printable (items text) ≡ true },
    ghost blank: { rest text ≡ replicate (24 - length (items text)) 0 },
}
