use station::StationFault;

// Why a house denies a call: one case for each question that is answered no.
#[derive(Clone, Copy, Debug, PartialEq, Eq)]
pub enum HouseFault {
    // the number of stations is not 1 to 8
    Stations,
    // the number of handsets is not 1 to 32
    Handsets,
    // the number of rows is not 1 to 4,096
    Rows,
    // the number of places is not 2 to 64
    Places,
    // a table has not the length that the numbers say
    Lengths,
    // the start list is neither empty nor names a station of the house for each handset
    StartList,
    // the tables name or hold what no table may
    Tables,
    // there is no such handset
    NoHandset,
    // there is no such station
    NoStation,
    // there is no such message
    NoMessage,
    // the sender is the addressee
    ToItself,
    // no station keeps the handset
    NotKept,
    // the handset is at that station already
    SameStation,
    // every row of the roll is in use
    NoRow,
    // the message is not on the wire
    NotOnWire,
    // the station that the message heads for neither holds the addressee nor has passed it on
    NotHeld,
    // the addressee's book has no room
    BookFull,
    // the handset has nothing unread
    NothingUnread,
    // the station has no notice
    NoNotice,
    // the handset is not on its way
    NotOnWay,
    // a station refuses for its tally's sake
    Station(StationFault),
}
