use crate::answers;
use crate::answers::{Answer, BOUND};
use ranges::narrowing::Narrowing;
use ranges::range::Range;
use ranges::row::Row;
use ranges::spans::Span;
use raster::raster::Raster;
use std::process::Abort;

/// The range of a row's ends and step.
pub(crate) fn range<R: Range>((low, high, step): (i32, i32, u32)) -> R {
    R::from_row(Row { low, high, step })
}

/// The ends and the step of a range's row, by which the tables hold it: three numbers on a line.
pub(crate) fn row_of<R: Range>(range: Option<R>) -> Option<(i32, i32, u32)> {
    range.map(|r| (r.low(), r.high(), r.to_row().step))
}

/// Each answer is the one of the table.
pub(crate) fn all_answer<R: Range>(rt: &impl Abort, cases: &[Answer]) {
    for case in cases {
        let a = range::<R>(case.a);
        let b = range::<R>(case.b);
        assert_eq!(rt; row_of(Some(a)), Some(case.a));
        assert_eq!(rt; row_of(Some(b)), Some(case.b));
        assert_eq!(rt; row_of(case.operation.answer(&a, &b)), case.row);
    }
}

#[test]
fn raster_answers(rt: HostRuntime) {
    all_answer::<Raster>(&rt, &answers::RASTER);
}

#[test]
fn raster_targets(rt: HostRuntime) {
    let r = range::<Raster>((0, 36, 2));
    assert!(rt; r.within(Span { low: 0, high: 36 }));
    assert!(rt; !r.within(Span { low: 0, high: 35 }));
    assert!(rt; r.apart(Span { low: 6, high: 7 }));
    assert!(rt; !r.apart(Span { low: 6, high: 8 }));
    assert!(rt; r.apart(Span { low: 37, high: 40 }));
    assert!(rt; !r.apart(Span { low: 36, high: 40 }));
    assert!(rt; r.apart(Span { low: 8, high: 6 }));
}

#[test]
fn raster_keeping(rt: HostRuntime) {
    for case in &answers::RASTER_KEPT {
        assert_eq!(rt; row_of(range::<Raster>(case.a).keep(case.span)), case.row);
    }
}

#[test]
fn constants_and_rows(rt: HostRuntime) {
    assert_eq!(rt;
        row_of(<Raster as Range>::constant(-BOUND)),
        Some((-BOUND, -BOUND, 31))
    );
    assert_eq!(rt; row_of(<Raster as Range>::constant(-BOUND - 1)), None);
    let uneven = range::<Raster>((0, 9, 2));
    assert_eq!(rt; (uneven.low(), uneven.high()), (0, 0));
}
