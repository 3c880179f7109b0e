//! What a verdict says, and that a record file is read in one way.
ghost use Rattle.records.specs.ReadingLaws.{FirstBringsNoName, HasNoFault, IsReadOneWay};
ghost use Rattle.records.specs.VerdictLaws.{DiffersIsFirst, SameIsEqual};

use recorder::Dated;
use wire_bytes::Wire;

/// Recorded lines are those of a run exactly if they are one text; and the line that is reported to differ is the first
/// that does.
pub fn a_verdict_is_of_the_lines()
    ensures same { SameIsEqual }
    ensures differs { DiffersIsFirst }
{}

/// A text is the file of at most one record: of one size, setup, list of events, and outputs. The only fault reported
/// for such a file is that memory ran out.
pub fn a_file_is_of_one_record<S: Wire, B: Dated>()
    ensures one { IsReadOneWay S.spelled S.fits B.spelled B.fits B.brings_name }
    ensures no_fault { HasNoFault S.spelled S.fits B.spelled B.fits B.brings_name }
{}

/// In a file from before clients had names no event brings one.
pub fn a_file_of_the_first_version_brings_no_name<S: Wire, B: Dated>()
    ensures { FirstBringsNoName S.spelled S.fits B.spelled B.fits B.brings_name }
{}
