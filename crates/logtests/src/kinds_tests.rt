// Which numbers are taken back for a plan or a mode, and which part is the first wrong one.
use kinds::value::{Loggable, Value};
use modes::Mode;
use plans::Plan;
use std::test::Fail;

// Whether the numbers are taken back for a value, or else which part is the first wrong one.
fn judge<V: Loggable>(numbers: &[u32]) -> Result<(), usize> {
    V::from_parts(numbers)
        .map(|_| ())
        .map_err(|wrong| wrong.index)
}

#[test]
fn plans_by_their_parts(rt: HostRuntime) {
    let table = [
        ([30, 29, 25], Ok(())),
        ([30, 30, 25], Err(1)),
        ([30, 29, 26], Err(2)),
        ([30, 0, 5], Ok(())),
        ([30, 0, 4], Err(2)),
        ([29, 0, 5], Err(0)),
        ([240, 239, 235], Ok(())),
        ([240, 240, 235], Err(1)),
        ([240, 239, 236], Err(2)),
        ([241, 0, 5], Err(0)),
        ([0, 0, 0], Err(0)),
        ([241, 300, 300], Err(0)),
        ([100, 300, 300], Err(1)),
        ([4_294_967_295, 0, 5], Err(0)),
        ([100, 20, 4_294_967_295], Err(2)),
    ];
    for (numbers, expected) in table {
        assert_eq!(rt; judge::<Plan>(&numbers), expected);
        let [cycle, offset, green] = numbers;
        assert_eq!(rt;
            Plan {
                cycle,
                offset,
                green,
            }
            .is_lawful(),
            expected.is_ok()
        );
    }
}

#[test]
fn modes_by_their_parts(rt: HostRuntime) {
    let table = [
        ([0, 0], Ok(())),
        ([0, 1], Err(1)),
        ([1, 9], Err(1)),
        ([1, 10], Ok(())),
        ([1, 120], Ok(())),
        ([1, 121], Err(1)),
        ([2, 0], Ok(())),
        ([2, 268_435_454], Ok(())),
        ([2, 268_435_455], Err(1)),
        ([3, 0], Err(0)),
        ([4_294_967_295, 0], Err(0)),
    ];
    for (numbers, expected) in table {
        assert_eq!(rt; judge::<Mode>(&numbers), expected);
    }
    assert!(rt; Mode::Fixed.is_lawful());
    assert!(rt; !Mode::Actuated { longest_green: 9 }.is_lawful());
    assert!(rt;
        !Mode::Held {
            last_tick: 268_435_455,
        }
        .is_lawful()
    );
}

// A number that is missing, or one too many, is wrong at its index; a wrong number before it comes first.
#[test]
fn numbers_missing_or_too_many(rt: HostRuntime) {
    assert_eq!(rt; judge::<Plan>(&[]), Err(0));
    assert_eq!(rt; judge::<Plan>(&[90]), Err(1));
    assert_eq!(rt; judge::<Plan>(&[90, 10]), Err(2));
    assert_eq!(rt; judge::<Plan>(&[90, 90]), Err(1));
    assert_eq!(rt; judge::<Plan>(&[90, 10, 40, 0]), Err(3));
    assert_eq!(rt; judge::<Plan>(&[90, 10, 86, 0]), Err(2));
    assert_eq!(rt; judge::<Mode>(&[]), Err(0));
    assert_eq!(rt; judge::<Mode>(&[1]), Err(1));
    assert_eq!(rt; judge::<Mode>(&[1, 50, 1]), Err(2));
    assert_eq!(rt; judge::<Mode>(&[7, 50, 1]), Err(0));
}

#[test]
fn values_come_back(rt: HostRuntime) -> Result<(), Fail> {
    let plan = Plan::from_parts(&[90, 10, 40]).ok().ok_or("a lawful plan")?;
    assert_eq!(rt;
        plan,
        Plan {
            cycle: 90,
            offset: 10,
            green: 40,
        }
    );
    assert_eq!(rt;
        (plan.part(0), plan.part(1), plan.part(2), plan.part(3)),
        (90, 10, 40, 0)
    );
    let mode = Mode::from_parts(&[2, 77]).ok().ok_or("a lawful mode")?;
    assert_eq!(rt; mode, Mode::Held { last_tick: 77 });
    assert_eq!(rt; (mode.part(0), mode.part(1), mode.part(2)), (2, 77, 0));
    assert_eq!(rt;
        (Plan::WIDTH, Plan::MARK, Mode::WIDTH, Mode::MARK),
        (3, 4, 2, 5)
    );
    Ok(())
}
