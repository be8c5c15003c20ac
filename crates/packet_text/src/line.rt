// The kind of tally with which a packet is to be read.
#[derive(Clone, Copy, Debug, PartialEq, Eq)]
pub enum TallyKind {
    Full,
    Listed,
}

// The kind of body that a packet is to carry.
#[derive(Clone, Copy, Debug, PartialEq, Eq)]
pub enum BodyKind {
    Code,
    Note,
}

// What a line asks: that a packet be read with a kind of tally and a kind of body.
#[derive(Clone, Copy, Debug, PartialEq, Eq)]
pub struct Asked<'a> {
    pub tally: TallyKind,
    pub body: BodyKind,
    pub packet: &'a [u8],
}
