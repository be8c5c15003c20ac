// The tables of a house: what they hold, what they say, and readers of single entries and of queues.
#![tactic(auto)]

mod readers;
mod rows;
mod tables;

pub use readers::{
    addressee_of, back_length, body_of, carried_of, handed_of, notice_count, passed_of, place_of,
    sender_of, stage_of, station_of, tag_of, tally_of, unread_length,
};
pub use rows::{HandsetRow, Head, RollRow, StationRow};
pub use tables::Tables;
