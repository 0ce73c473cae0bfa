//! The status of a call that decides claims.

ghost use Rattle.std.specs.Prelude.{◌≡◌};
ghost use Rattle.std.specs.List.{list_all, list_any};
ghost use Rattle.report_text.specs.Report.{is_proved, is_refuted, is_undecided, is_not_refuted, status_of};

use crate::Verdict;

const PROVED: u8 = 0;

const NOT_DERIVABLE: u8 = 10;

const REFUTED: u8 = 11;

const UNDECIDED: u8 = 12;

const NOT_REFUTED: u8 = 13;

fn is_proved(verdict: &Verdict) -> bool
    ensures { result ≡ is_proved verdict.now }
{
    matches!(verdict, Verdict::Proved(_))
}

fn is_refuted(verdict: &Verdict) -> bool
    ensures { result ≡ is_refuted verdict.now }
{
    matches!(verdict, Verdict::Refuted(_))
}

fn is_undecided(verdict: &Verdict) -> bool
    ensures { result ≡ is_undecided verdict.now }
{
    matches!(verdict, Verdict::Undecided(_))
}

fn is_not_refuted(verdict: &Verdict) -> bool
    ensures { result ≡ is_not_refuted verdict.now }
{
    matches!(verdict, Verdict::NotRefuted { .. })
}

fn all_are_proved(verdicts: &[Verdict]) -> bool
    ensures { result ≡ list_all is_proved verdicts.now }
{
    verdicts.iter().all(|verdict| is_proved(verdict))
}

fn some_is_refuted(verdicts: &[Verdict]) -> bool
    ensures { result ≡ list_any is_refuted verdicts.now }
{
    verdicts.iter().any(|verdict| is_refuted(verdict))
}

fn some_is_undecided(verdicts: &[Verdict]) -> bool
    ensures { result ≡ list_any is_undecided verdicts.now }
{
    verdicts.iter().any(|verdict| is_undecided(verdict))
}

fn some_is_not_refuted(verdicts: &[Verdict]) -> bool
    ensures { result ≡ list_any is_not_refuted verdicts.now }
{
    verdicts.iter().any(|verdict| is_not_refuted(verdict))
}

/// The status of a call with these verdicts: 12 where some claim is undecided; else 13 where some claim is not refuted;
/// else 11 where some claim is refuted; else 0 where each is proved; else 10.
pub fn status_of(verdicts: &[Verdict]) -> u8
    ensures { result ≡ status_of verdicts.now }
{
    if some_is_undecided(verdicts) {
        UNDECIDED
    } else if some_is_not_refuted(verdicts) {
        NOT_REFUTED
    } else if some_is_refuted(verdicts) {
        REFUTED
    } else if all_are_proved(verdicts) {
        PROVED
    } else {
        NOT_DERIVABLE
    }
}
