use crate::fault::HouseFault;

// A step that a house is asked to take. The numbers are as they come; whether they are in range is asked.
#[derive(Clone, Copy, Debug, PartialEq, Eq)]
pub enum Call<B> {
    // a handset sends a body to another
    Send {
        sender: u16,
        addressee: u16,
        body: B,
    },
    // a message arrives at the station that it heads for
    Arrive {
        name: u16,
    },
    // a handset reads the first of its unread messages
    ReadNext {
        handset: u16,
    },
    // a handset asks to go to another station
    Register {
        handset: u16,
        station: u16,
    },
    // a station lets go the handset of its oldest notice
    Release {
        station: u16,
    },
    // a handset that is on its way arrives
    Settle {
        handset: u16,
    },
}

// What an arrival does to its message.
#[derive(Clone, Copy, Debug, PartialEq, Eq)]
pub enum Arrived {
    // it is taken in; how many messages were handed
    Handed(u16),
    // it is sent on to a station
    SentOn(u8),
}

// What a granted call tells.
#[derive(Clone, Copy, Debug, PartialEq, Eq)]
pub enum Granted<B> {
    // a send: the message's name
    Named(u16),
    // an arrival: what it did to the message
    Arrived(Arrived),
    // a reading: the message's name and its body
    Got { name: u16, body: B },
    // a registration: the station that the handset leaves
    Registered(u8),
    // a release: the handset, and the station for which it leaves
    Released { handset: u8, station: u8 },
    // a settling: the station that keeps the handset now
    Settled(u8),
}

// What a house answers to a call.
pub type Answer<B> = Result<Granted<B>, HouseFault>;
