use crate::drive::driven::Driven;
use crate::stories::telling::tell;
use std::io::{self, Write};
use std::test::Fail;
use whole_input::read_whole;

/// `tests/cases` gives the stories of `tests/stories/drive`.
#[test]
fn stories(rt: HostRuntime) -> Result<(), Fail> {
    let text = read_whole(rt.alloc(), &mut rt.reader())?;
    let (said, failed) = tell::<Driven>(rt.alloc(), &text)?;
    io::writer(&rt).write_all(&said)?;
    if failed > 0 {
        return Err(Fail::from("not each story is as it is told"));
    }
    Ok(())
}
