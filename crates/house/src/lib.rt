// The calls on a house.
#![tactic(auto)]

mod moves;
mod queues;
mod writes;
