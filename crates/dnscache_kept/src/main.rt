//! Saves a small cache and loads it again, as it is and changed; and serves the events of a script in two runs, of which the second begins
//! with the cache that the first one left.
#![tactic(auto)]

mod images;
mod runs;

use std::io;

fn main(rt: HostRuntime) -> io::Result<()> {
    images::say_all(&rt)?;
    runs::say_both(&rt)
}
