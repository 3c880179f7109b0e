//! How often something may be done, by example.
use driver::{Backoff, Pace, Timer};
use std::test::Fail;

#[test]
fn five_lines_at_once_and_then_one_each_two_seconds(rt: HostRuntime) -> Result<(), Fail> {
    let mut pace = Pace::new(5, 2000);
    let mut gone = 0u8;
    for _ in 0..7 {
        gone = gone.wrapping_add(pace.go(10_000) as u8);
    }
    assert!(rt; gone == 5);
    assert!(rt; !pace.go(11_999));
    assert!(rt; pace.go(12_000));
    assert!(rt; !pace.go(13_999));
    assert!(rt; pace.go(14_000));
    Ok(())
}

#[test]
fn without_a_time_each_line_goes(rt: HostRuntime) -> Result<(), Fail> {
    let mut pace = Pace::new(1, 0);
    for _ in 0..3 {
        assert!(rt; pace.go(7));
    }
    Ok(())
}

#[test]
fn waits_are_doubled_up_to_a_minute(rt: HostRuntime) -> Result<(), Fail> {
    let mut backoff = Backoff::new(1000, 60_000);
    for wait in [1000, 2000, 4000, 8000, 16_000, 32_000, 60_000, 60_000] {
        assert!(rt; backoff.fail() == wait);
    }
    backoff.reset();
    assert!(rt; backoff.fail() == 1000);
    Ok(())
}

#[test]
fn a_timer_tells_how_long_ago(rt: HostRuntime) -> Result<(), Fail> {
    let timer = Timer::from(500);
    assert!(rt; !timer.has_passed(1000, 1499));
    assert!(rt; timer.has_passed(1000, 1500));
    assert!(rt; !timer.has_passed(1, 400));
    Ok(())
}
