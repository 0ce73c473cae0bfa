//! What holds of all texts.

ghost use Rattle.statement_syntax.specs.Laws.{EachTextIsRead};

/// Each text has a tree or a first fault. It has nothing to run.
pub fn each_text_is_read()
    ensures { EachTextIsRead }
{}
