//! Laws of the definition, each the contract of a function that does nothing.
ghost use Rattle.jd_lower.specs.Laws.{AreNumberedInOrder, AreSpelledAsRead, PrintLinesInOrder};

/// The lexer reads each word from the text that the word has as the name of a variable.
pub fn words_are_spelled_as_they_are_read()
    ensures { AreSpelledAsRead }
{}

/// A script of `println` alone, with expressions, prints its lines in their order and does nothing else.
pub fn lines_are_printed_in_order()
    ensures { PrintLinesInOrder }
{}

/// The bodies that a program calls are numbered from 1, in the order of its script.
pub fn bodies_are_numbered_in_order()
    ensures { AreNumberedInOrder }
{}
