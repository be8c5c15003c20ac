use station::StationFault;

// Why a packet is refused, with the byte place where that is not always the same.
#[derive(Clone, Copy, Debug, PartialEq, Eq)]
pub enum Fault {
    // there are not enough bytes; the packet's length
    Short(usize),
    // it does not open with the mark
    Mark,
    // it is of another version
    Version,
    // its body is of another kind than the one wanted
    Kind,
    // the station, a handset or the name is out of range, or the addressee is the sender
    Field(usize),
    // a pair is out of range, does not rise, or does not count 1 to 8,191
    Order(usize),
    // the pairs do not fit the tally, with the refusal
    Counts(usize, StationFault),
    // the body is not lawful
    Unlawful(usize),
    // there are bytes after the end
    Trailing(usize),
}

// Why a message is not packed.
#[derive(Clone, Copy, Debug, PartialEq, Eq)]
pub enum PackFault {
    // the buffer is shorter than the packet
    ShortBuffer,
}
