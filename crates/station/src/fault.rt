use tally::Refusal;

// Why a station refuses.
#[derive(Clone, Copy, Debug, PartialEq, Eq)]
pub enum StationFault {
    // the counts would not fit; the tally's own refusal, whole
    Counts(Refusal),
}
