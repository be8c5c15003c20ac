// Where a handset is.
#[derive(Clone, Copy, Debug, PartialEq, Eq)]
pub enum Place {
    // a station keeps it
    Kept { station: u8 },
    // it is leaving a station for another, and the one that it leaves still holds it
    Leaving { from: u8, to: u8 },
    // it is on its way from one to the other, and no station holds it
    OnWay { from: u8, to: u8 },
}

// Where a message is.
#[derive(Clone, Copy, Debug, PartialEq, Eq)]
pub enum Stage {
    // on the wire, heading for a station
    Wire { heading: u8 },
    // standing back in its addressee's book until it is ripe
    Back,
    // unread in its addressee's book
    Unread,
    // read by its addressee
    Read,
}

// What a station knows of a handset that is leaving it: which, and for where.
#[derive(Clone, Copy, Debug, PartialEq, Eq)]
pub struct Notice {
    pub handset: u8,
    pub station: u8,
}
