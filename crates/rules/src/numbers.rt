// The numbers that a house is opened with.
#[derive(Clone, Copy, Debug, PartialEq, Eq)]
pub struct Numbers {
    pub stations: u16,
    pub handsets: u16,
    // how many messages the roll has rows for
    pub rows: u16,
    // how many unread places a handset has, and how many back places
    pub places: u16,
}
