//! The numbers of types and classes, as messages have them (RFC 1035, 3.2.2 to 3.2.5; RFC 3596, 2.1), each proved to be the
//! one of `dc_model`.
#![tactic(auto)]

pub mod class;
pub mod rtype;
