//! The program `report`: reads a job record from standard input and prints why the record is
//! refused, or what was accepted, what its targets say of the whole start box, and what
//! forward-backward leaves of that box.
//!
//! The text is worked out by `lines::text`, whose contract gives its bytes for every record. Only
//! reading the input and printing the text stand outside the proof.
#![tactic(auto)]

mod lines;

use crate::lines::text;
use std::io;
use std::io::Read;

/// The most bytes of the input that are read.
const MOST: u64 = 1024;

// `main` of `lockmap` has the same four lines. A crate that held them, and took what is said as a
// closure, would be no plainer.
fn main(rt: HostRuntime) -> io::Result<()> {
    let mut bytes = Vec::new(rt.alloc());
    rt.stdin().take(MOST).read_to_end(&mut bytes)?;
    let said = text(rt.alloc(), bytes.as_slice())?;
    println!(rt; "{said}")
}
