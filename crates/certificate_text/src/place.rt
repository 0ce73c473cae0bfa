//! What a reader has made of the lines before one.

ghost use Rattle.std.specs.Prelude.{◌≡◌};
ghost use Rattle.certificate_text.specs.Reading.{lemma_certificate_of};

use cofactor_trace::{Certificate, Format, Lemma, LemmaCertificate};
use lists::Listing;

/// How many rows a block has so far, and how many letters they have.
#[derive(Clone, Copy)]
pub struct Size {
    pub rows: u32,
    pub letters: u32,
}

/// The size of a block without rows.
pub const NO_ROWS: Size = Size {
    rows: 0,
    letters: 0,
};

/// What was read of a certificate with lemmas, before its goal.
#[derive(Drop)]
pub struct Opened {
    pub claim: u32,
    pub denominator: i128,
    /// The lemmas all of whose rows were read.
    pub lemmas: Listing<Lemma>,
    /// Of the rows of all lemmas and of the goal.
    pub size: Size,
}

impl Opened {
    /// The certificate with this goal.
    pub fn with_goal(self, goal: Lemma) -> LemmaCertificate
        ensures { result ≡ lemma_certificate_of self goal }
    {
        LemmaCertificate {
            claim: self.claim,
            denominator: self.denominator,
            lemmas: self.lemmas,
            goal,
        }
    }
}

/// How far an open certificate was read.
#[derive(Drop)]
pub enum Stage {
    /// After its head.
    Headed {
        form: Format,
    },
    /// After its claim.
    Claimed {
        form: Format,
        claim: u32,
    },
    /// In the rows of a certificate without lemmas.
    Rows {
        certificate: Certificate,
        size: Size,
    },
    /// After the denominator of a certificate with lemmas.
    Opened {
        opened: Opened,
    },
    /// In the rows of a lemma.
    Lemma {
        opened: Opened,
        lemma: Lemma,
    },
    /// In the rows of the goal.
    Goal {
        opened: Opened,
        goal: Lemma,
    },
}
