use boxes::region::Region;
use boxes::side::Side;
use jobs::job::Job;
use std::alloc::Global;
use std::test::Fail;
use tables::table::Table;

/// The job of a record in hexadecimal.
pub(crate) fn job_of(heap: Global, text: &'static str) -> Result<Job, Fail> {
    let bytes = hex::decode(heap, text)?;
    Job::read(bytes.as_slice()).map_err(|_| Fail::new(text))
}

/// The box with these ends of its sides.
pub(crate) fn region_of(ends: &[(i32, i32)]) -> Result<Region, Fail> {
    if ends.is_empty() || ends.len() > 4 {
        return Err(Fail::new("no such number of knobs"));
    }
    let blank = Side { low: 0, high: 0 };
    let sides = Table::try_from_fn(blank, ends.len(), |k| {
        Side::new(ends[k].0, ends[k].1).ok_or("no side")
    })?;
    Ok(Region { sides })
}
