//! Laws of the definitions, each the contract of a function that does nothing.
ghost use Rattle.jd_syntax.specs.Spelling.{SpellOneScript};
ghost use Rattle.jd_syntax.specs.Refusal.{AreRefusedOnce, AreNotBoth, AreSpelledOrRefused};

/// Bytes spell at most one script.
pub fn bytes_spell_one_script()
    ensures { SpellOneScript }
{}

/// Bytes are refused at one place and for one reason.
pub fn bytes_are_refused_once()
    ensures { AreRefusedOnce }
{}

/// Bytes that spell a script are not refused.
pub fn spelled_bytes_are_not_refused()
    ensures { AreNotBoth }
{}

/// Bytes spell a script, or are refused at a place and for a reason.
pub fn bytes_are_spelled_or_refused()
    ensures { AreSpelledOrRefused }
{}
