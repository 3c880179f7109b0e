use crate::marked::cells::{deliver, is_refused, look_after, mark, recorded, restart, three, turn};
use std::test::Fail;
use world_views::NodeInput;

#[test]
fn a_look_waits_until_its_mark_is_applied(rt: HostRuntime) -> Result<(), Fail> {
    let mut cells = three(rt.alloc())?;
    turn(&mut cells, 0, NodeInput::Timeout)?;
    deliver(&mut cells, 1, 0)?;
    deliver(&mut cells, 0, 1)?;
    assert!(rt; mark(&mut cells, 0)? == 1);
    turn(&mut cells, 0, NodeInput::Beat)?;
    deliver(&mut cells, 1, 0)?;
    deliver(&mut cells, 0, 1)?;
    turn(&mut cells, 0, NodeInput::Apply)?;
    assert!(rt; look_after(&mut cells, 0, 1)? == (0, 0));
    turn(&mut cells, 0, NodeInput::Apply)?;
    assert!(rt; look_after(&mut cells, 0, 1)? == (2, 1));
    assert!(rt; look_after(&mut cells, 0, 2)? == (0, 0));
    assert!(rt; recorded(cells, 0)? == 8);
    Ok(())
}

#[test]
fn a_mark_has_the_next_number_of_its_run(rt: HostRuntime) -> Result<(), Fail> {
    let mut cells = three(rt.alloc())?;
    assert!(rt; is_refused(&mut cells, 0)?);
    turn(&mut cells, 0, NodeInput::Timeout)?;
    deliver(&mut cells, 1, 0)?;
    deliver(&mut cells, 0, 1)?;
    assert!(rt; mark(&mut cells, 0)? == 2);
    assert!(rt; mark(&mut cells, 0)? == 3);
    restart(&mut cells, 0)?;
    turn(&mut cells, 0, NodeInput::Timeout)?;
    deliver(&mut cells, 1, 0)?;
    deliver(&mut cells, 0, 1)?;
    assert!(rt; mark(&mut cells, 0)? == 1);
    Ok(())
}
