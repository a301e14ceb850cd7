//! The lines of the log, byte for byte. Each call builds its line, without a line end, in one buffer that the caller keeps.
#![tactic(auto)]

mod causes;
mod line;
mod lookups;
mod packets;
mod queries;

pub use causes::{CloseCause, DropCause, HostKind};
pub use line::Line;
pub use lookups::{line_cached, line_cached_cname, line_cached_ns, line_cached_nxdomain, line_tx};
pub use packets::{
    line_lame, line_nodata, line_nxdomain, line_rr, line_rr_host, line_rr_mx, line_rr_soa,
    line_servfail,
};
pub use queries::{
    line_drop, line_query, line_sent, line_starting, line_stats, line_tcpclose, line_tcpopen,
};

#[cfg(test)]
mod tests;
