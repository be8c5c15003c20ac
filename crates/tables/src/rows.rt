use rules::{Numbers, Place, Stage};

// What is kept of a house as a whole.
#[derive(Clone, Copy)]
pub struct Head {
    pub numbers: Numbers,
    // how many rows are in use
    pub used: u16,
}

// A station.
#[derive(Clone, Copy)]
pub struct StationRow<T> {
    pub tally: T,
    // how many notices it has
    pub notices: u16,
    // the station to which it last passed each handset on
    pub passed: [Option<u8>; 32],
}

// A handset.
#[derive(Clone, Copy)]
pub struct HandsetRow<T> {
    pub place: Place,
    // how many messages of each station have been handed to it
    pub handed: [u16; 8],
    // the tally that it carries on its way
    pub carried: T,
    // how many messages of its book are unread, and how many stand back
    pub unread: u16,
    pub back: u16,
}

// A message of the roll.
#[derive(Clone, Copy)]
pub struct RollRow<T, B> {
    pub station: u8,
    pub sender: u8,
    pub addressee: u8,
    pub tag: T,
    pub body: B,
    pub stage: Stage,
}
