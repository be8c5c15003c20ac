// The numbers that a message names: the sending station, the handsets, and the message's own name.
#[derive(Clone, Copy, Debug, PartialEq, Eq)]
pub struct Head {
    pub station: u8,
    pub sender: u8,
    pub addressee: u8,
    pub name: u16,
}
