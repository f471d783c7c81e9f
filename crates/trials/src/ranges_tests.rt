use crate::answers;
use crate::answers::BOUND;
use crate::kinds_tests::{all_answer, range, row_of};
use ranges::narrowing::Narrowing;
use ranges::plain::Plain;
use ranges::range::Range;
use ranges::spans::Span;

#[test]
fn answers(rt: HostRuntime) {
    all_answer::<Plain>(&rt, &answers::PLAIN);
}

#[test]
fn targets_and_keeping(rt: HostRuntime) {
    let r = range::<Plain>((0, 9, 0));
    assert!(rt; r.within(Span { low: 0, high: 9 }));
    assert!(rt; !r.within(Span { low: 1, high: 9 }));
    assert!(rt; r.apart(Span { low: 10, high: 12 }));
    assert!(rt; !r.apart(Span { low: 9, high: 12 }));
    assert_eq!(rt; row_of(r.keep(Span { low: 3, high: 20 })), Some((3, 9, 0)));
    assert_eq!(rt; row_of(r.keep(Span { low: 10, high: 20 })), None);
    assert_eq!(rt; row_of(r.keep(Span { low: 5, high: 4 })), None);
}

#[test]
fn constants_and_rows(rt: HostRuntime) {
    assert_eq!(rt;
        row_of(<Plain as Range>::constant(BOUND)),
        Some((BOUND, BOUND, 0))
    );
    assert_eq!(rt; row_of(<Plain as Range>::constant(BOUND + 1)), None);
    let crossed = range::<Plain>((5, 4, 0));
    assert_eq!(rt; (crossed.low(), crossed.high()), (0, 0));
}
