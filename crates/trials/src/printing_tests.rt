use crate::jobs_read::job_of;
use crate::judging_tests::NEAR_THREE;
use boxes::side::Side;
use evaluation::says::Says;
use records::reason::{Reason, Refusal};
use std::test::Fail;

#[test]
fn values_print(rt: HostRuntime) -> Result<(), Fail> {
    let heap = rt.alloc();
    let side = Side::new(-1000, 599).ok_or("no side")?;
    assert_eq!(rt; format!(in heap; "{side}")?.as_str(), "-1000..599");
    let refusal = Refusal::new(Reason::BadInstruction, 36);
    assert_eq!(rt; format!(in heap; "{refusal}")?.as_str(), "refused 4 36");
    let job = job_of(heap, NEAR_THREE)?;
    assert_eq!(rt;
        format!(in heap; "{job}")?.as_str(),
        "knobs 1 instructions 4 targets 1 settings 10"
    );
    let words = [
        (Says::Within, "within"),
        (Says::Apart, "apart"),
        (Says::Open, "open"),
    ];
    for (says, word) in words {
        assert_eq!(rt; format!(in heap; "{says}")?.as_str(), word);
    }
    Ok(())
}
