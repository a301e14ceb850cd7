//! Asking servers over UDP and TCP: one question, its plan of attempts, and what follows each event (after djbdns' dns_transmit.c;
//! RFC 1035, 4.2).
//!
//! Contracts see a transmission as an attempt of `dc_model`, and after an answer as the packet with its server.
#![tactic(auto)]

mod attempt;
mod course;
mod gathering;
mod hearing;
mod places;
mod progress;
mod relevance;
mod round;
#[cfg(test)]
mod tests;
mod transmit;

pub use progress::Progress;
pub use transmit::Transmit;
