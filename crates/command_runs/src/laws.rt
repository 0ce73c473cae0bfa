//! The laws of all answers, for users.
ghost use Rattle.command_runs.specs.Laws.{AnswersOnce, EachCallHasAnEnding};
ghost use Rattle.command_runs.specs.OwnReports.{ReportsAreChecked, ReportsAreConfirmed};

/// A call has at most one ending over the contents of its files, on which alone it depends.
pub fn a_call_is_answered_once()
    ensures { AnswersOnce }
{}

/// Each call has an ending over the contents of its files.
pub fn each_call_has_an_ending()
    ensures { EachCallHasAnEnding }
{}

/// To the report of `prove` or `refute` on a statement `check` answers 0 over the same statement, or 7 where the sum of
/// a certificate exceeds a limit, or where no claim is proved.
pub fn reports_are_checked()
    ensures { ReportsAreChecked }
{}

/// And `model` answers 0, or 7 where no claim is refuted.
pub fn reports_are_confirmed()
    ensures { ReportsAreConfirmed }
{}
