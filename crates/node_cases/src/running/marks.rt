//! What bodies tell of marks, by example.
use bouncer_tower::Tower;
use machine_laws::Marking;
use std::test::Fail;
use toy_machine::Toy;
use wire_bytes::{Mark, Number};

/// The number that the body of a mark tells, 0 where it tells none.
fn told<M: Marking>(number: Number) -> u64 {
    let mark = Mark {
        node: 2,
        boot: number,
        number,
    };
    match M::marked(&M::mark(mark)) {
        Some(told) => told.number.value(),
        None => 0,
    }
}

#[test]
fn the_tower_tells_its_marks_and_the_toy_none(rt: HostRuntime) -> Result<(), Fail> {
    assert!(rt; told::<Tower>(Number::new(5)) == 5);
    assert!(rt; told::<Toy>(Number::new(5)) == 0);
    Ok(())
}
