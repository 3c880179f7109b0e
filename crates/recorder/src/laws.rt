//! Events and their text are inverse.
ghost use Rattle.recorder.specs.EventLaws.{HasOneFirstBad, HaveNoBadLine, HaveTheirOwnText};

use wire_bytes::Wire;

/// No two lists of events have the same text, so parsing what was written gives back what was
/// written.
pub fn no_two_lists_have_one_text<B: Wire>()
    ensures { HaveTheirOwnText B.spelled B.fits }
{}

/// No line of what was written is bad, and a text has at most one first bad line.
pub fn what_is_written_has_no_bad_line<B: Wire>()
    ensures written { HaveNoBadLine B.spelled B.fits }
    ensures first { HasOneFirstBad B.spelled B.fits }
{}
