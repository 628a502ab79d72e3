// Reads a network file from standard input, opens it over its support clauses, and writes its page.
#![tactic(auto)]

use anyhow::Result;
use mapping::MapError;
use network::{LABEL_BYTES, MAX_POINTS, MAX_VALUES};
use std::io::{Read, Write};

// The most bytes that a page can have: 48 lines of a label, a space, 16 signs and a line feed.
const MOST_BYTES: usize = MAX_POINTS * (LABEL_BYTES + 1 + MAX_VALUES + 1);

fn run(rt: &HostRuntime) -> Result<()> {
    let mut file = Vec::new(rt.alloc());
    let _ = rt.stdin().read_to_end(&mut file)?;
    // an array, since the size of a page is bounded
    let mut page = [0u8; MOST_BYTES];
    match mapping::write_map(rt.alloc(), &file, &mut page) {
        Ok(length) => rt.stdout().write_all(&page[..length])?,
        Err(MapError::Refused(fault)) => rt.println(fault)?,
        // want of memory: that the page is too long does not happen, since there is room for the longest
        Err(error) => return Err(error.into()),
    }
    Ok(())
}

fn main(rt: HostRuntime) -> Result<()> {
    run(&rt)
}
