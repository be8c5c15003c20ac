// Examples of short lists, tallies, bodies and packets, with their outcomes.
#![tactic(auto)]

#[cfg(test)]
mod bodies;
#[cfg(test)]
mod lists;
#[cfg(test)]
mod packets;
#[cfg(test)]
mod tallies;
