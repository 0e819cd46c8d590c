//! What is promised of the words, as contracts of functions that do nothing.

ghost use Rattle.po_words.specs.Laws.{OneRequest, WordsAsk, WordsAskNothing};

/// Words ask for at most one request: the definition that `request_of` cites leaves no choice (docs/PROGRAM.md,
/// "Words").
pub fn one_request()
    ensures { OneRequest }
{}

/// The single words `naive`, `slow` and `opt` ask for what their names say, `opt` with 4 workers, 2 learners and no
/// line of numbers; and what options ask for, written apart or with `=` (docs/PROGRAM.md, "Words").
pub fn words_ask()
    ensures { WordsAsk }
{}

/// No words, another first word, a missing or repeated option, a value out of its bounds or with a sign, and a further
/// word ask for nothing (docs/PROGRAM.md, "Words").
pub fn words_ask_nothing()
    ensures { WordsAskNothing }
{}
