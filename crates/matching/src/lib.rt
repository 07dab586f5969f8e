// Who gets a datagram, which ports are taken, and which source a destination is reached from.
#![tactic(auto)]

pub mod ports;
pub mod routes;
pub mod scoring;

// The best match and its score.
// stays: a count of 1 to 4 that no caller reads, since the definition `best_of` gives a Best with it.
#[derive(Clone, Copy)]
pub struct Best {
    pub at: usize,
    pub score: u8,
}
