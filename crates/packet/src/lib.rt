// Packets on the wire: what they carry, and why they are refused.
#![tactic(auto)]

ghost use Rattle.std.specs.Prelude.{◌≡◌, if◌then◌else◌, Some, None};
ghost use Rattle.std.specs.Option.{option_map};
ghost use Rattle.packet.specs.declared.fault.Fault.{Fault as PacketFault};
ghost use Rattle.packet.specs.declared.fault.PackFault.TheVariants.{ShortBuffer as PackShortBuffer};
ghost use Rattle.packet.specs.Heads.{in_range};
ghost use Rattle.packet.specs.Messages.{parts};
ghost use Rattle.packet.specs.Faults.{tells, pack_number};

use body::ShortBuffer;
use tally::Pair;

mod fault;
mod head;
mod message;

pub use fault::{Fault, PackFault};
pub use head::Head;
pub use message::Message;

impl Head {
    // Are the numbers in range, and do the handsets differ?
    pub fn is_in_range(self) -> bool
        ensures { result ≡ in_range self }
    {
        self.station < 8
            && self.sender < 32
            && self.addressee < 32
            && self.sender != self.addressee
            && self.name < 4096
    }
}

impl<T, B> Message<T, B> {
    // A message with these parts, or none where a number of its head is out of range.
    pub fn new(head: Head, tag: T, body: B) -> Option<Message<T, B>>
    where
        T: Drop,
        B: Drop,
        ensures { option_map parts result ≡ (if in_range head then Some (head, tag, body) else None) }
    {
        if head.is_in_range() {
            Some(Message { head, tag, body })
        } else {
            None
        }
    }

    pub fn head(&self) -> Head
        ensures { result ≡ self.now.head }
    {
        self.head
    }

    // The tag: what the sending station counted before it sent the message.
    pub fn tag(&self) -> &T
        ensures { result.now ≡ self.now.tag }
    {
        &self.tag
    }

    pub fn body(&self) -> &B
        ensures { result.now ≡ self.now.body }
    {
        &self.body
    }
}

impl Fault {
    // The refusal's number, which the product fixes. What refusals tell is never the same of two of them.
    pub fn number(self) -> u8
        ensures is { result ≡ (tells self).number }
        ensures told_apart { (other : PacketFault) → tells other ≡ tells self → other ≡ self }
    {
        match self {
            Fault::Short(_) => 31,
            Fault::Mark => 32,
            Fault::Version => 33,
            Fault::Kind => 34,
            Fault::Field(_) => 35,
            Fault::Order(_) => 36,
            Fault::Counts(_, _) => 37,
            Fault::Unlawful(_) => 38,
            Fault::Trailing(_) => 39,
        }
    }

    // The byte place at which the packet is refused.
    pub fn place(self) -> usize
        ensures { result ≡ (tells self).place }
    {
        match self {
            Fault::Mark => 0,
            Fault::Version => 3,
            Fault::Kind => 5,
            Fault::Short(place)
            | Fault::Field(place)
            | Fault::Order(place)
            | Fault::Counts(place, _)
            | Fault::Unlawful(place)
            | Fault::Trailing(place) => place,
        }
    }

    // The pair at which the counts no longer fit the tally, where that is the reason.
    pub fn pair(self) -> Option<Pair>
        ensures { result ≡ (tells self).pair }
    {
        match self {
            Fault::Counts(_, fault) => Some(fault.pair()),
            _ => None,
        }
    }
}

impl From<ShortBuffer> for PackFault {
    ghost from_gives = { λ short fault. fault ≡ PackShortBuffer };

    fn from(_short: ShortBuffer) -> PackFault {
        Self::ShortBuffer
    }
}

impl PackFault {
    // The refusal's number, which the product fixes.
    pub fn number(self) -> u8
        ensures { result ≡ pack_number self }
    {
        match self {
            PackFault::ShortBuffer => 40,
        }
    }
}
