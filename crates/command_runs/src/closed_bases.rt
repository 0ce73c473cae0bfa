//! The laws of the bases that are printed of closed claims.
ghost use Rattle.command_runs.specs.Printed.{PrintedBasesAreConfirmed};
ghost use Rattle.command_runs.specs.SharpBases.{PrintedBasesAreSharp, PrintedBasesMeanSharp, PrintedBasesMeanStarSharp};
ghost use Rattle.command_runs.specs.BasesReadBack.{ReportsReadBackAsBases, StatementReportsReadBackAsBases, ReportedBasesAreConfirmed};

/// The basis that is printed of a claim that is closed, with any budget, is closed, unless an S-polynomial or a reduction of
/// its check has a fault: a limit is exceeded, or a number is out of range.
pub fn printed_bases_are_confirmed()
    ensures { PrintedBasesAreConfirmed }
{}

/// The basis that is printed of a claim that is closed, with any budget, is called sharp where it is accepted; and what
/// that means holds of it, accepted or not.
pub fn printed_bases_are_sharp()
    ensures told { PrintedBasesAreSharp }
    ensures mean { PrintedBasesMeanSharp }
    ensures mean_starred { PrintedBasesMeanStarSharp }
{}

/// A report is read as the bases of its claims that aren't derivable, in their order. Where there is no such claim, it has no
/// basis.
pub fn reports_are_read_back_as_bases()
    ensures { ReportsReadBackAsBases }
{}

/// So is the report on the claims of a statement, of at most 100,000 rules.
pub fn statement_reports_are_read_back_as_bases()
    ensures { StatementReportsReadBackAsBases }
{}

/// Each basis in the report of the outcomes of all claims of a problem is closed, or its check stops.
pub fn reported_bases_are_confirmed()
    ensures { ReportedBasesAreConfirmed }
{}
