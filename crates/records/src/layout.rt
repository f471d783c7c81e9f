ghost use Rattle.std.specs.Prelude.{◌≡◌, ◌+◌, ◌≤◌, length, IfOk};
ghost use Rattle.records.specs.Numbers.{byte};
ghost use Rattle.records.specs.Faults.{unless, passed};
ghost use Rattle.records.specs.Layouts.{count_fault, head_fault, size_fault};

use crate::bytes::read_u32;
use crate::places::VERSION_PLACE;
use crate::reason::{Reason, Refusal};

/// The count in the byte at a place: from 1 to the most there may be.
pub(crate) fn count_at(bytes: &[u8], at: usize, most: u8) -> Result<usize, Refusal>
    ensures value { result ≡ unless (count_fault bytes.now at most) (byte bytes.now at) }
    ensures few { IfOk result (λ n. n ≤ most) }
{
    if bytes.len() <= at {
        return Err(Refusal::new(Reason::BadShape, bytes.len()));
    }
    let count = bytes[at];
    if count == 0 || count > most {
        return Err(Refusal::new(Reason::BadShape, at));
    }
    Ok(count as usize)
}

/// Whether length field and version are right.
pub(crate) fn head(bytes: &[u8]) -> Result<(), Refusal>
    ensures { result ≡ passed (head_fault bytes.now) }
{
    if bytes.len() < 5 {
        return Err(Refusal::new(Reason::BadLength, bytes.len()));
    }
    if read_u32(bytes, 0) as usize + 4 != bytes.len() {
        return Err(Refusal::new(Reason::BadLength, 0));
    }
    if bytes[VERSION_PLACE] != 1 {
        return Err(Refusal::new(Reason::BadVersion, VERSION_PLACE));
    }
    Ok(())
}

/// Whether the record ends where it should.
pub(crate) fn size(bytes: &[u8], end: usize) -> Result<(), Refusal>
    ensures { result ≡ passed (size_fault bytes.now end) }
{
    if bytes.len() < end {
        return Err(Refusal::new(Reason::BadShape, bytes.len()));
    }
    if bytes.len() > end {
        return Err(Refusal::new(Reason::BadShape, end));
    }
    Ok(())
}
