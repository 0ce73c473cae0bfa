//! Lines of letters and bases as bytes.

ghost use Rattle.std.specs.Prelude.{◌≡◌, ◌<◌, ◌++◌, IfSome, OnOk};
ghost use Rattle.std.specs.List.{All};
ghost use Rattle.block_lines.specs.Written.{letter_line_text, rule_line, basis_text};
ghost use Rattle.quiver.specs.Declarations.{letter_count};
ghost use Rattle.quiver.specs.Over.{IsPolyOver};

use block_text::{put, put_letter, put_number, put_poly};
use nc_polynomial::Poly;
use quiver::Quiver;
use std::alloc::AllocError;
use word_core::Letter;

/// Appends a line of a word and a letter, or of the word alone.
pub fn put_letter_line(
    out: &mut Vec<u8>,
    quiver: &Quiver,
    word: &str,
    letter: Option<Letter>,
) -> Result<(), AllocError>
    requires { IfSome letter (λ a. a.0 < letter_count quiver.now) }
    ensures { OnOk result (out.new.items ≡ out.old.items ++ letter_line_text quiver.now word.now letter) }
{
    put(out, word)?;
    let Some(letter) = letter else {
        return put(out, "\n");
    };
    put(out, " ")?;
    put_letter(out, quiver, letter)?;
    put(out, "\n")
}

fn put_rule(out: &mut Vec<u8>, quiver: &Quiver, rule: &Poly) -> Result<(), AllocError>
    requires { IsPolyOver quiver.now rule.now }
    ensures { OnOk result (out.new.items ≡ out.old.items ++ rule_line quiver.now rule.now) }
{
    put(out, "rule ")?;
    put_poly(out, quiver, rule)?;
    put(out, "\n")
}

/// Appends a basis, as a block of evidence text with a line for each rule and one for the rest of the claim. It fails
/// only where memory is short.
pub fn put_basis(
    out: &mut Vec<u8>,
    quiver: &Quiver,
    rules: &[Poly],
    claim: usize,
    rest: &Poly,
) -> Result<(), AllocError>
    requires rules { All (IsPolyOver quiver.now) rules.now }
    requires rest { IsPolyOver quiver.now rest.now }
    ensures { OnOk result (out.new.items ≡ out.old.items ++ basis_text quiver.now rules.now claim rest.now) }
{
    put(out, "basis 1\nclaim ")?;
    put_number(out, claim as u128)?;
    put(out, "\n")?;
    for rule in rules {
        put_rule(out, quiver, rule)?;
    }
    put(out, "rest ")?;
    put_poly(out, quiver, rest)?;
    put(out, "\nend\n")
}
