use crate::cases::{Accepted, Refused};
use crate::jobs_read::job_of;
use crate::{outside, worked};
use jobs::job::Job;
use std::alloc::Global;
use std::process::Abort;
use std::test::Fail;

/// Each record is refused, with its number and its place.
fn all_refused(rt: &impl Abort, heap: Global, cases: &[Refused]) -> Result<(), Fail> {
    for case in cases {
        let bytes = hex::decode(heap, case.text)?;
        let Err(refusal) = Job::read(bytes.as_slice()) else {
            return Err(Fail::new(case.text));
        };
        assert_eq!(rt; u32::from(refusal.reason), case.number, "{}", case.text);
        assert_eq!(rt; refusal.place, case.place, "{}", case.text);
    }
    Ok(())
}

/// Each record is accepted, and its start box has so many settings.
fn all_accepted(rt: &impl Abort, heap: Global, cases: &[Accepted]) -> Result<(), Fail> {
    for case in cases {
        let job = job_of(heap, case.text)?;
        assert_eq!(rt; job.settings(), case.settings, "{}", case.text);
    }
    Ok(())
}

#[test]
fn outside_records(rt: HostRuntime) -> Result<(), Fail> {
    all_refused(&rt, rt.alloc(), &outside::REFUSED)?;
    all_accepted(&rt, rt.alloc(), &outside::ACCEPTED)
}

#[test]
fn worked_records(rt: HostRuntime) -> Result<(), Fail> {
    all_refused(&rt, rt.alloc(), &worked::REFUSED)?;
    all_accepted(&rt, rt.alloc(), &worked::ACCEPTED)
}

#[test]
fn noise(rt: HostRuntime) -> Result<(), Fail> {
    let mut bytes = [0u8; 1024];
    let mut state: u32 = 1;
    for b in &mut bytes {
        state = state.wrapping_mul(1_103_515_245).wrapping_add(12_345);
        *b = (state >> 24) as u8;
    }
    let Err(length) = Job::read(&bytes) else {
        return Err(Fail::new("noise is accepted"));
    };
    assert_eq!(rt; u32::from(length.reason), 1);
    assert_eq!(rt; length.place, 0);
    bytes[0] = 0;
    bytes[1] = 0;
    bytes[2] = 3;
    bytes[3] = 252;
    bytes[4] = 1;
    let Err(shape) = Job::read(&bytes) else {
        return Err(Fail::new("noise behind a right head is accepted"));
    };
    assert_eq!(rt; u32::from(shape.reason), 3);
    assert_eq!(rt; shape.place, 5);
    Ok(())
}
