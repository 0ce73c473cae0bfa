//! What blocks of evidence text of every kind have: lines, tokens, letters, numbers and their faults, and how they are written.
#![tactic(auto)]

mod bracket;
mod cut;
mod fault;
mod kind;
mod kinds;
mod laws;
mod letter;
mod letters;
mod line;
mod number;
mod place;
mod poly;
mod polynomial;
mod read;
mod write;

pub use bracket::bracketed;
pub use cut::{first_line, first_token, is_skipped, is_utf8};
pub use fault::{CertFault, Flaw, at_line};
pub use kind::BlockKind;
pub use kinds::{are_letters, are_numbers};
pub use laws::{polynomial_flaws_are_told, polynomial_lines_are_read, polynomials_are_read_back};
pub use letter::{is_letter, letter_of, name_in};
pub use letters::Letters;
pub use line::{
    BLOCK_LIMIT, begins, claim_of, integer_of, is, is_end, is_pair, number_behind, number_of,
    two_tokens,
};
pub use number::{
    INTEGER_LIMIT, NUMBER_LIMIT, integer_within, is_integer, is_number, number_within,
};
pub use poly::{put_poly, put_poly_by, write_poly};
pub use polynomial::read_polynomial;
pub use read::{ReadText, read_blocks};
pub use write::{
    put, put_integer, put_labelled, put_letter, put_number, put_signed, put_word, put_word_by,
    write_word,
};
