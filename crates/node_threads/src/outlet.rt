//! Where a worker passes on its reports.
ghost use Rattle.std.specs.Prelude.{◌≡◌, IfErr, OnOk};

use node_notes::Report;
use std::sync::Wait;

/// Takes the effects of a node, in reports that also give the node's state. A line that is handed out upstream is not
/// among them: its upstream has got it. What is proved of those who report is proved over any outlet: only `report`
/// says that a report was taken.
pub trait Outlet<E>: Drop {
    ghost use Rattle.node_notes.specs.declared.report.Report.{Report};

    /// It took this report, and is in this state since.
    ghost has_taken: { Self → Report E → Self → Type 0 };

    /// Takes the report, or gives it back if memory runs out: then it is reported again.
    fn report<R: Wait>(&mut self, rt: &R, report: Report<E>) -> Result<(), Report<E>>
        ensures taken { OnOk result (has_taken self.old report self.new) }
        ensures back { IfErr result (λ back. back ≡ report) };
}
