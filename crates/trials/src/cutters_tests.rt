use crate::cases::Kind;
use crate::cuts::{CUTS, Cut, CutterKind};
use crate::jobs_read::{job_of, region_of};
use boxes::region::Region;
use cutters::cutter::Cutter;
use cutters::idle::Idle;
use cutters::repeat::Repeat;
use cutters::seq::Seq;
use forward_backward::forward_backward::ForwardBackward;
use inverses::of_factor;
use jobs::job::Job;
use ranges::narrowing::Narrowing;
use ranges::plain::Plain;
use ranges::range::Range;
use ranges::row::Row;
use ranges::spans::Span;
use raster::raster::Raster;
use std::process::Abort;
use std::test::Fail;

fn row(low: i32, high: i32) -> Row {
    Row { low, high, step: 0 }
}

/// The box is the one of these sides.
fn same(rt: &impl Abort, region: &Region, sides: &[(i32, i32)], note: &str) -> Result<(), Fail> {
    assert_eq!(rt; region.sides(), region_of(sides)?.sides(), "{}", note);
    Ok(())
}

/// The cutter leaves what the case says, and the box as it is where nothing is left.
fn leaves<R: Range, C: Cutter<R>>(
    rt: &impl Abort,
    cutter: &C,
    job: &Job,
    case: &Cut,
) -> Result<(), Fail> {
    let mut region = region_of(case.sides)?;
    let mut rows = [Row::default(); 64];
    let some = cutter.cut(job, &mut region, &mut rows);
    match case.left {
        Some(sides) => {
            assert!(rt; some, "{}", case.text);
            same(rt, &region, sides, case.text)
        }
        None => {
            assert!(rt; !some, "{}", case.text);
            same(rt, &region, case.sides, case.text)
        }
    }
}

fn leaves_by<R: Narrowing>(rt: &impl Abort, job: &Job, case: &Cut) -> Result<(), Fail> {
    match case.cutter {
        CutterKind::ForwardBackward => leaves::<R, ForwardBackward>(
            rt,
            &ForwardBackward,
            job,
            case,
        ),
        CutterKind::Twice => {
            let twice = Seq {
                first: ForwardBackward,
                second: ForwardBackward,
            };
            leaves::<R, Seq<ForwardBackward, ForwardBackward>>(rt, &twice, job, case)
        }
        CutterKind::Nested => {
            let nested = Seq {
                first: Repeat {
                    inner: ForwardBackward,
                    times: 3,
                },
                second: Idle,
            };
            leaves::<R, Seq<Repeat<ForwardBackward>, Idle>>(rt, &nested, job, case)
        }
    }
}

#[test]
fn outside_cuts(rt: HostRuntime) -> Result<(), Fail> {
    for case in &CUTS {
        let job = job_of(rt.alloc(), case.text)?;
        match case.kind {
            Kind::Plain => leaves_by::<Plain>(&rt, &job, case)?,
            Kind::Raster => leaves_by::<Raster>(&rt, &job, case)?,
        }
    }
    Ok(())
}

#[test]
fn too_few_rows_leave_the_box(rt: HostRuntime) -> Result<(), Fail> {
    let case = CUTS.first().ok_or("no case")?;
    let job = job_of(rt.alloc(), case.text)?;
    let mut region = region_of(case.sides)?;
    let mut rows = [Row::default(); 3];
    assert!(rt;
        <ForwardBackward as Cutter<Plain>>::cut(&ForwardBackward, &job, &mut region, &mut rows)
    );
    same(&rt, &region, case.sides, case.text)
}

#[test]
fn factors(rt: HostRuntime) {
    let exactly = |n: i64| Some(Span { low: n, high: n });
    assert_eq!(rt; of_factor(row(7, 8), row(3, 4)), exactly(2));
    assert_eq!(rt; of_factor(row(7, 8), row(2, 2)), exactly(4));
    assert_eq!(rt; of_factor(row(7, 8), row(-1, 4)), None);
    assert_eq!(rt;
        of_factor(row(-7, 8), row(-4, -3)),
        Some(Span { low: -2, high: 2 })
    );
}
