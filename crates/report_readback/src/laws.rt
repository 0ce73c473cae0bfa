//! The laws of reports that are read as evidence and as models, and of the answers to their evidence.
ghost use Rattle.report_readback.specs.Answered.{DerivedEvidenceIsAnswered, ReportedEvidenceIsAnswered};
ghost use Rattle.report_readback.specs.ModelsReadBack.{ReportsReadBackAsModels, StatementReportsReadBackAsModels, BreakingCandidatesAreWritable};
ghost use Rattle.report_readback.specs.ReadBack.{OutcomeReportsReadBack, ReportsReadBack, StatementReportsReadBack};

/// A report is read as the evidence of its proved claims, in their order. Where no claim is proved, it has no certificate.
pub fn reports_are_read_back()
    ensures { ReportsReadBack }
{}

/// So is the report on the claims of a problem, by the outcomes of all claims, with any models that refute those whose runs stopped,
/// and any budget and format.
pub fn outcome_reports_are_read_back()
    ensures { OutcomeReportsReadBack }
{}

/// So is the report on the claims of a statement: what it declares has names of the language.
pub fn statement_reports_are_read_back()
    ensures { StatementReportsReadBack }
{}

/// A report is read as the models of its refuted claims, in their order. Where no claim is refuted, it has no model.
pub fn reports_are_read_back_as_models()
    ensures { ReportsReadBackAsModels }
{}

/// So is the report on the claims of a statement.
pub fn statement_reports_are_read_back_as_models()
    ensures { StatementReportsReadBackAsModels }
{}

/// A candidate that breaks a claim of a statement is a model that can be written: its matrices are those of the declared maps,
/// which have names.
pub fn breaking_candidates_are_writable()
    ensures { BreakingCandidatesAreWritable }
{}

/// The evidence of a derived claim is accepted, unless its sum exceeds a limit: by a coefficient, by the terms of a
/// sum, or by the terms of all lemmas.
pub fn derived_evidence_is_answered()
    ensures { DerivedEvidenceIsAnswered }
{}

/// So is all evidence in the report of the outcomes of all claims of a problem.
pub fn reported_evidence_is_answered()
    ensures { ReportedEvidenceIsAnswered }
{}
