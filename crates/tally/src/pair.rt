// A station and a handset. A tally counts what the station is known to have sent to the handset.
#[derive(Clone, Copy, Debug, PartialEq, Eq)]
pub struct Pair {
    pub station: u8,
    pub handset: u8,
}

// Why a tally refuses to count: the pair out of range, or the first at which the counts no longer fit.
#[derive(Clone, Copy, Debug, PartialEq, Eq)]
pub struct Refusal {
    pub pair: Pair,
}

// A try to raise a count was refused; it says no more.
#[derive(Clone, Copy, Debug, PartialEq, Eq)]
pub struct NotRaised;
