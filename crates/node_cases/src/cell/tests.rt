use crate::cell::cells::{
    deliver, is_behind, is_taken, left, line_of, look, replaced, restart, three, turn,
};
use node_cells::Recording;
use std::test::Fail;
use world_views::NodeInput;

#[test]
fn three_cells_elect_agree_apply_and_look(rt: HostRuntime) -> Result<(), Fail> {
    let mut cells = three(rt.alloc(), Recording::On)?;
    turn(&mut cells, 0, NodeInput::Timeout)?;
    deliver(&mut cells, 1, 0)?;
    deliver(&mut cells, 0, 1)?;
    turn(&mut cells, 0, NodeInput::Ask(7))?;
    turn(&mut cells, 0, NodeInput::Beat)?;
    deliver(&mut cells, 1, 0)?;
    deliver(&mut cells, 0, 1)?;
    turn(&mut cells, 0, NodeInput::Apply)?;
    turn(&mut cells, 0, NodeInput::Apply)?;
    assert!(rt; look(&mut cells, 0, 2)? == (2, 7));
    assert!(rt; line_of(&cells, 0)? == (1, 2, 2, 2));
    assert!(rt; line_of(&cells, 1)? == (1, 2, 0, 0));
    assert!(rt; left(&mut cells, 0)? == (8, (1, 2, 2, 2)));
    Ok(())
}

#[test]
fn a_node_that_is_started_again_keeps_its_log_alone(rt: HostRuntime) -> Result<(), Fail> {
    let mut cells = three(rt.alloc(), Recording::On)?;
    turn(&mut cells, 0, NodeInput::Timeout)?;
    deliver(&mut cells, 1, 0)?;
    deliver(&mut cells, 0, 1)?;
    restart(&mut cells, 0)?;
    assert!(rt; line_of(&cells, 0)? == (1, 1, 0, 0));
    assert!(rt; is_behind(&mut cells, 0, 1)?);
    assert!(rt; left(&mut cells, 0)? == (4, (1, 1, 0, 0)));
    Ok(())
}

#[test]
fn a_cell_that_records_nothing_runs_as_one_that_does(rt: HostRuntime) -> Result<(), Fail> {
    let mut cells = three(rt.alloc(), Recording::Off)?;
    turn(&mut cells, 0, NodeInput::Timeout)?;
    deliver(&mut cells, 1, 0)?;
    deliver(&mut cells, 0, 1)?;
    turn(&mut cells, 0, NodeInput::Ask(7))?;
    turn(&mut cells, 0, NodeInput::Beat)?;
    deliver(&mut cells, 1, 0)?;
    deliver(&mut cells, 0, 1)?;
    turn(&mut cells, 0, NodeInput::Apply)?;
    turn(&mut cells, 0, NodeInput::Apply)?;
    assert!(rt; look(&mut cells, 0, 2)? == (2, 7));
    restart(&mut cells, 1)?;
    assert!(rt; left(&mut cells, 0)? == (0, (1, 2, 2, 2)));
    assert!(rt; left(&mut cells, 0)? == (0, (1, 2, 0, 0)));
    Ok(())
}

#[test]
fn what_nobody_took_comes_back(rt: HostRuntime) -> Result<(), Fail> {
    let alloc = rt.alloc();
    let mut cells = three(alloc, Recording::On)?;
    turn(&mut cells, 0, NodeInput::Timeout)?;
    assert!(rt; !is_taken(&mut cells, 0, 1)? && !is_taken(&mut cells, 0, 2)?);
    deliver(&mut cells, 1, 0)?;
    deliver(&mut cells, 0, 1)?;
    assert!(rt; is_taken(&mut cells, 0, 1)? && is_taken(&mut cells, 1, 0)?);
    assert!(rt; replaced(alloc, &mut cells, 0)?.as_slice() == [2].as_slice());
    assert!(rt; replaced(alloc, &mut cells, 0)?.as_slice() == [3, 4].as_slice());
    deliver(&mut cells, 2, 0)?;
    assert!(rt; is_taken(&mut cells, 0, 2)? && !is_taken(&mut cells, 0, 1)?);
    Ok(())
}
