//! The certificates of evidence text.

ghost use Rattle.std.specs.Prelude.{◌≡◌, ◌<◌, IfOk, MatchResult, length, map};
ghost use Rattle.std.specs.List.{All};
ghost use Rattle.block_text.specs.Fault.{ExplainsBy};
ghost use Rattle.certificate_text.specs.Evidence.{IsEvidence, IsFirstFault, IsCheckable, IsCheckableEvidence};
ghost use Rattle.certificate_text.specs.Reading.{IsPlain};
ghost use Rattle.traced_rows.specs.declared.evidence.Evidence.TheVariants as Evidence;
ghost use Rattle.traced_rows.specs.declared.evidence.Format.TheVariants as Format;

use crate::step::Certificates;
use block_text::{ReadText, read_blocks};
use cofactor_trace::{Certificate, Evidence, Format};
use lists::Listing;
use quiver::Quiver;
use std::alloc::{AllocError, Global};

// The certificates that the blocks are.
fn plain_certificates(
    alloc: Global,
    blocks: Listing<Evidence>,
) -> Result<Listing<Certificate>, AllocError>
    requires { All IsPlain blocks }
    ensures { IfOk result (λ cs. blocks ≡ map Evidence.Plain cs) }
{
    let mut certificates = Listing::new(alloc);
    for block in blocks.into_vec() {
        match block {
            Evidence::Plain(certificate) => certificates.push(certificate)?,
            Evidence::Lemmas(_) => unreachable!(),
        }
    }
    Ok(certificates)
}

/// The certificates of both formats of the text, over the letters of the quiver, or its first fault.
/// Blocks of other kinds are skipped. Any text can fail for want of memory.
pub fn read_evidence(alloc: Global, bytes: &[u8], quiver: &Quiver) -> ReadText<Evidence>
    requires { length bytes.now < 4294967295 }
    // They are those of the bytes, or the fault is the first one of the bytes.
    ensures exact { MatchResult result (IsEvidence Format.Lemmas quiver.now bytes.now) (ExplainsBy (IsFirstFault Format.Lemmas quiver.now bytes.now)) }
    // Each can be checked.
    ensures checkable { IfOk result (All (IsCheckableEvidence quiver.now)) }
{
    let most = Format::Lemmas;
    read_blocks(alloc, &Certificates { most, quiver }, bytes)
}

/// The certificates of format 1 of the text, over the letters of the quiver, or its first fault: a block
/// of format 2 fits no grammar at its first line. Blocks of other kinds are skipped. Any text can fail for
/// want of memory.
pub fn read_certificates(alloc: Global, bytes: &[u8], quiver: &Quiver) -> ReadText<Certificate>
    requires { length bytes.now < 4294967295 }
    // They are those of the bytes, or the fault is the first one of the bytes.
    ensures exact { MatchResult result (λ cs. IsEvidence Format.Plain quiver.now bytes.now (map Evidence.Plain cs))
        (ExplainsBy (IsFirstFault Format.Plain quiver.now bytes.now)) }
    // Each can be checked.
    ensures checkable { IfOk result (All (IsCheckable quiver.now)) }
{
    let most = Format::Plain;
    let blocks = read_blocks(alloc, &Certificates { most, quiver }, bytes)?;
    Ok(plain_certificates(alloc, blocks)?)
}
