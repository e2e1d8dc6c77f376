// Ranks, layers and tables.
use plan::{Doubling, Knuth, Layered, Mirror, Plan, Reverse, Shift, Table, Turn};
use refusal::Refusal;
use std::test::Fail;

#[test]
fn knuth_repeats(rt: HostRuntime) {
    assert_eq!(rt; Knuth.rank(6, 5), 63);
    assert_eq!(rt; Knuth.rank(14, 13), 63);
    assert_eq!(rt; Knuth.rank(usize::MAX, usize::MAX), 36);
}

#[test]
fn doubling_is_worked_out_from_below(rt: HostRuntime) -> Result<(), Fail> {
    let two = Doubling::new(2)?;
    assert_eq!(rt; two.rank(1, 0), 12);
    assert_eq!(rt; two.rank(1, 1), 4);
    assert_eq!(rt; two.rank(1, 2), 14);
    assert_eq!(rt; two.rank(1, 3), 6);
    let four = Doubling::new(4)?;
    assert_eq!(rt; four.top(), 255);
    assert!(rt; Doubling::new(0).is_err());
    assert!(rt; Doubling::new(5).is_err());
    Ok(())
}

#[test]
fn reverse_of_order_one(rt: HostRuntime) -> Result<(), Fail> {
    let plan = Layered::new(Doubling::new(1)?, Reverse);
    assert_eq!(rt; plan.rank(0, 0), 3);
    assert_eq!(rt; plan.rank(0, 1), 1);
    assert_eq!(rt; plan.rank(1, 0), 0);
    assert_eq!(rt; plan.rank(1, 1), 2);
    Ok(())
}

#[test]
fn layers_read_the_plan_below(rt: HostRuntime) {
    let shifted = Layered::new(Knuth, Shift::new(3, 200));
    assert_eq!(rt; shifted.rank(3, 5), 63);
    let far = Layered::new(Knuth, Shift::new(255, 255));
    assert_eq!(rt; far.rank(usize::MAX, usize::MAX), 60);
    let mirrored = Layered::new(Knuth, Mirror);
    assert_eq!(rt; mirrored.rank(6, 2), 63);
    assert_eq!(rt; Layered::new(Knuth, Turn).rank(5, 6), 63);
    assert_eq!(rt; Layered::new(mirrored, Reverse).rank(6, 2), 0);
}

#[test]
fn tables_are_taken_or_left(rt: HostRuntime) {
    let mut table = Table::new();
    assert_eq!(rt; table.rank(1, 0), 3);
    assert_eq!(rt;
        table.write(2, 2, &[0, 1, 2, 0]),
        Err(Refusal::TouchingEqualRanks)
    );
    assert_eq!(rt;
        table.write(1, 4, &[0, 1, 2, 3]),
        Err(Refusal::OutsideLimits)
    );
    assert_eq!(rt; table.write(2, 17, &[0, 1]), Err(Refusal::OutsideLimits));
    assert_eq!(rt; table.write(2, 2, &[0, 1, 2]), Err(Refusal::OutsideLimits));
    assert_eq!(rt; table.rank(1, 0), 3);
    assert_eq!(rt; table.write(2, 2, &[9, 1, 2, 0]), Ok(()));
    assert_eq!(rt; table.rank(4, 6), 9);
    assert_eq!(rt; table.top(), 255);
}

#[test]
fn tables_are_judged_across_the_wrap(rt: HostRuntime) {
    let mut table = Table::new();
    // the two equal ranks touch only where the last column meets the first
    assert_eq!(rt;
        table.write(2, 4, &[0, 1, 2, 3, 4, 5, 6, 0]),
        Err(Refusal::TouchingEqualRanks)
    );
    // and here only where the last row meets the first
    assert_eq!(rt;
        table.write(4, 2, &[0, 1, 2, 3, 4, 5, 6, 0]),
        Err(Refusal::TouchingEqualRanks)
    );
    assert_eq!(rt; table.write(3, 3, &[0, 1, 2, 3, 4, 5, 6, 7, 8]), Ok(()));
}
