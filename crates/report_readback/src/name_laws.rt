//! The laws of declared names, which are names of the language.
ghost use Rattle.report_readback.specs.Names.{DeclaredNamesAreNames, NamesAreNameTokens};

/// The names of evidence text are exactly the texts of the statement language's name tokens.
pub fn names_are_name_tokens()
    ensures { NamesAreNameTokens }
{}

/// In the problem of the statements of a text, each object and map has a name of the language.
pub fn declared_names_are_names()
    ensures { DeclaredNamesAreNames }
{}
