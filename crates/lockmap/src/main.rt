//! The program `lockmap`: reads a job record from standard input and prints one line, why the
//! record is refused or what was accepted.
//!
//! The line is worked out by `line`, whose contract gives its bytes for every record. Only reading
//! the input and printing the line stand outside the proof.
#![tactic(auto)]

ghost use Rattle.std.specs.Prelude.{◌≡◌, IfOk, string_bytes};
ghost use Rattle.jobs.specs.Reading.{verdict};
ghost use Rattle.lockmap.specs.Lines.{said};

use jobs::job::Job;
use std::alloc::{AllocError, Global};
use std::io;
use std::io::Read;

/// The most bytes of the input that are read.
const MOST: u64 = 1024;

/// What is said of a record. `report` says more of a job, so it has its own.
fn line(heap: Global, bytes: &[u8]) -> Result<String, AllocError>
    ensures { IfOk result (λ t. string_bytes t ≡ said (verdict bytes.now)) }
{
    match Job::read(bytes) {
        Ok(job) => format!(in heap; "accepted {job}"),
        Err(refusal) => format!(in heap; "{refusal}"),
    }
}

// `main` of `report` has the same four lines. A crate that held them, and took what is said as a
// closure, would be no plainer.
fn main(rt: HostRuntime) -> io::Result<()> {
    let mut bytes = Vec::new(rt.alloc());
    rt.stdin().take(MOST).read_to_end(&mut bytes)?;
    let text = line(rt.alloc(), bytes.as_slice())?;
    println!(rt; "{text}")
}
