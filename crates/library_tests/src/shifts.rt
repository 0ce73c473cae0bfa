//! Shifts, a kind of block of three lines: read from bytes and written back.

ghost use Rattle.std.specs.Prelude.{◌≡◌, ◌<◌, ◌++◌, List, IfOk, IsTrue, MatchResult, OnOk, length};
ghost use Rattle.std.specs.List.{All, list_all};
ghost use Rattle.quiver.specs.Declarations.{Declaration, IsDeclared};
ghost use Rattle.block_text.specs.Back.{is_named};
ghost use Rattle.block_text.specs.Fault.{ExplainsBy};
ghost use Rattle.block_text.specs.Laws.{AreTold, AreReadBack};
ghost use Rattle.block_text.specs.Texts.{HasBlocks, IsBlocks, IsFirstFault};
ghost use Rattle.library_tests.specs.Shifts.{shift_kind, shift_steps, other_words, shift_text, HasLetter, IsWritable};

use block_lines::{Blocks, LetterLine, LineThen, NoLines, NumberLine, put_letter_line};
use block_text::{BlockKind, NUMBER_LIMIT, ReadText, put, put_labelled, read_blocks};
use quiver::Quiver;
use std::alloc::{AllocError, Global};
use word_core::Letter;

/// A letter or none, and a number.
pub type Shift = (Option<Letter>, (u32, ()));

// A line `letter LETTER`, or `letter`, and one `by N`.
type ShiftLines<'q> = LineThen<LetterLine<'q>, LineThen<NumberLine, NoLines>>;

fn shift_blocks(quiver: &Quiver) -> Blocks<ShiftLines<'_>>
    ensures { ⟦<Blocks<ShiftLines<'static>> as BlockKind>⟧.steps result ≡ shift_steps quiver.now }
{
    let (word, most) = ("by", NUMBER_LIMIT as u32);
    let (line, rest) = (NumberLine { word, most }, NoLines);
    let rest = LineThen { line, rest };
    let word = "letter";
    let line = LetterLine { word, quiver };
    Blocks {
        first: "shift",
        second: "1",
        others: &["certificate", "model", "basis"],
        lines: LineThen { line, rest },
    }
}

/// The shifts of the text, over the letters of the quiver, or the first thing that is wrong with it. Blocks of other kinds are
/// skipped. Want of memory is told where there is no room, whatever the text is.
pub fn read_shifts(alloc: Global, bytes: &[u8], quiver: &Quiver) -> ReadText<Shift>
    requires { length bytes.now < 4294967295 }
    // They are those that the bytes have, or what is told is the first thing that is wrong with the bytes.
    ensures exact { MatchResult result (IsBlocks (shift_kind quiver.now) bytes.now) (ExplainsBy (IsFirstFault (shift_kind quiver.now) bytes.now)) }
    // The letter of each is one of the quiver.
    ensures letters { IfOk result (All (HasLetter quiver.now)) }
{
    read_blocks(alloc, &shift_blocks(quiver), bytes)
}

/// A shift behind bytes, as a block of evidence text. Only memory can be short.
pub fn put_shift(out: &mut Vec<u8>, quiver: &Quiver, shift: &Shift) -> Result<(), AllocError>
    requires { HasLetter quiver.now shift.now }
    ensures { OnOk result (out.new.items ≡ out.old.items ++ shift_text quiver.now shift.now) }
{
    put(out, "shift 1\n")?;
    put_letter_line(out, quiver, "letter", shift.0)?;
    put_labelled(out, "by ", u128::from(shift.1.0))?;
    put(out, "\nend\n")
}

/// The laws that each text has shifts or a first fault, in one way. They have nothing to run.
pub fn texts_are_told()
    ensures { (ds : List Declaration) → AreTold (IsBlocks (shift_kind ds)) (IsFirstFault (shift_kind ds)) }
{}

/// The laws that shifts that are written are read as they are, whatever stands around them, where objects and maps have names of
/// the language. They have nothing to run.
pub fn shifts_are_read_back()
    ensures { (ds : List Declaration) → IsDeclared ds → IsTrue (list_all is_named ds)
        → AreReadBack (HasBlocks (shift_kind ds)) (shift_text ds) (IsWritable ds) other_words }
{}
