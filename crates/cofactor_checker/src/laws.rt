//! The laws of certificates and of evidence.
ghost use Rattle.cofactor_checker.specs.Laws.{EachCertificateIsJudged, RefusalIsUnique};
ghost use Rattle.cofactor_checker.specs.Laws.{AcceptedEvidenceAddsUp, EvidenceRefusalIsUnique, AcceptedEvidenceIsNotRefused, EvidenceIsJudged};

/// Of one certificate there is one refusal at most, apart from want of memory: so `check` answers with no
/// other. It does nothing when it runs.
#[tactic(auto, using(crate::proofs::Judged::refusal_is_unique))]
pub fn refusal_is_unique()
    ensures { RefusalIsUnique }
{}

/// Each certificate is accepted, or one of its tests is the first that fails. It does nothing when it runs.
#[tactic(auto, using(crate::proofs::Judged::each_certificate_is_judged))]
pub fn each_certificate_is_judged()
    ensures { EachCertificateIsJudged }
{}

/// Evidence that passes each test adds up to the claim that it names. It does nothing when it runs.
#[tactic(auto, using(crate::proofs::Shown::accepted_evidence_adds_up))]
pub fn accepted_evidence_adds_up()
    ensures { AcceptedEvidenceAddsUp }
{}

/// Of one evidence there is one refusal at most, apart from want of memory: so `check_evidence` answers with no
/// other. It does nothing when it runs.
#[tactic(auto, using(crate::proofs::Judged::evidence_refusal_is_unique))]
pub fn evidence_refusal_is_unique()
    ensures { EvidenceRefusalIsUnique }
{}

/// Evidence that passes each test is refused for want of memory alone. It does nothing when it runs.
#[tactic(auto, using(crate::proofs::Judged::accepted_evidence_is_not_refused))]
pub fn accepted_evidence_is_not_refused()
    ensures { AcceptedEvidenceIsNotRefused }
{}

/// Each evidence is accepted, or one of its tests is the first that fails. It does nothing when it runs.
#[tactic(auto, using(crate::proofs::Judged::evidence_is_judged))]
pub fn evidence_is_judged()
    ensures { EvidenceIsJudged }
{}
