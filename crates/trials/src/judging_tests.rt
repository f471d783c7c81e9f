use crate::cases::Kind;
use crate::jobs_read::{job_of, region_of};
use crate::outside_judged::JUDGED;
use evaluation::evaluate::evaluate;
use evaluation::judge::{judge, judge_start};
use evaluation::says::Says;
use evaluation::unfit::Unfit;
use jobs::job::Job;
use ranges::plain::Plain;
use ranges::range::Range;
use ranges::row::Row;
use raster::raster::Raster;
use std::test::Fail;

/// One knob from 0 to 9; (knob - 3) squared within 0 to 4.
pub(crate) const NEAR_THREE: &str =
    "0000002f0101000100000009040100000000000000000000000003030001000000000502000000000001030000000000000004";

/// One knob from 0 to 9; the knob times 4 within 6 to 7.
const NO_MULTIPLE: &str =
    "0000002801010001000000090301000000000000000000000000040400010000000001020000000600000007";

const UNUSED: Row = Row {
    low: 7,
    high: -7,
    step: 77,
};

/// What the targets say of the box from low to high.
fn said<R: Range>(job: &Job, low: i32, high: i32) -> Result<Says, Fail> {
    let mut rows = [UNUSED; 6];
    judge::<R>(job, &region_of(&[(low, high)])?, &mut rows).map_err(|_| Fail::new(
        "the box is refused",
    ))
}

#[test]
fn outside_start_boxes(rt: HostRuntime) -> Result<(), Fail> {
    for case in &JUDGED {
        let job = job_of(rt.alloc(), case.text)?;
        let says = match case.kind {
            Kind::Plain => judge_start::<Plain>(&job),
            Kind::Raster => judge_start::<Raster>(&job),
        };
        assert_eq!(rt; says, case.says, "{}", case.text);
    }
    Ok(())
}

#[test]
fn boxes_near_three(rt: HostRuntime) -> Result<(), Fail> {
    let job = job_of(rt.alloc(), NEAR_THREE)?;
    assert_eq!(rt; said::<Plain>(&job, 0, 9)?, Says::Open);
    assert_eq!(rt; said::<Plain>(&job, 1, 5)?, Says::Within);
    assert_eq!(rt; said::<Plain>(&job, 0, 5)?, Says::Open);
    assert_eq!(rt; said::<Plain>(&job, 6, 9)?, Says::Apart);
    assert_eq!(rt; said::<Raster>(&job, 0, 0)?, Says::Apart);
    assert_eq!(rt; said::<Raster>(&job, 5, 5)?, Says::Within);
    Ok(())
}

#[test]
fn multiples_on_the_raster(rt: HostRuntime) -> Result<(), Fail> {
    let job = job_of(rt.alloc(), NO_MULTIPLE)?;
    assert_eq!(rt; judge_start::<Raster>(&job), Says::Apart);
    assert_eq!(rt; judge_start::<Plain>(&job), Says::Open);
    assert_eq!(rt; said::<Plain>(&job, 1, 1)?, Says::Apart);
    Ok(())
}

#[test]
fn unfit_work_is_refused(rt: HostRuntime) -> Result<(), Fail> {
    let job = job_of(rt.alloc(), NEAR_THREE)?;
    let mut few = [UNUSED; 3];
    assert_eq!(rt;
        evaluate::<Plain>(&job, &region_of(&[(0, 9)])?, &mut few),
        Err(Unfit::Scratch)
    );
    assert!(rt; few[0].low == 7);
    let mut rows = [UNUSED; 5];
    assert_eq!(rt;
        evaluate::<Plain>(&job, &region_of(&[(0, 10)])?, &mut rows),
        Err(Unfit::Elsewhere)
    );
    assert_eq!(rt;
        evaluate::<Plain>(&job, &region_of(&[(-1, 9)])?, &mut rows),
        Err(Unfit::Elsewhere)
    );
    assert!(rt; rows[3].low == 7);
    assert_eq!(rt;
        evaluate::<Plain>(&job, &region_of(&[(4, 9)])?, &mut rows),
        Ok(())
    );
    assert!(rt; rows[3].low == 1 && rows[3].high == 36);
    assert!(rt; rows[4].low == 7 && rows[4].step == 77);
    Ok(())
}
