//! What the grammar and the machine that reads it promise of all tokens: the contracts are the laws.
ghost use Rattle.jd_grammar.specs.Promise.{SpellOneScript, ReadsWhatIsSpelled, GoesAsFarAsScripts, GoesAsDeepAsScripts, AreRefusedOnce};

/// Tokens spell at most one script: each script has one tree.
pub fn tokens_spell_one_script()
    ensures { SpellOneScript }
{}

/// The machine reads a script exactly where the grammar spells it within the nesting limit, and as that tree.
pub fn machine_reads_what_is_spelled()
    ensures { ReadsWhatIsSpelled }
{}

/// The machine goes on exactly as long as the tokens may still become a script, of whatever depth.
pub fn machine_goes_as_far_as_scripts()
    ensures { GoesAsFarAsScripts }
{}

/// It stays within the nesting limit exactly as long as the tokens may still become a script within it.
pub fn machine_goes_as_deep_as_scripts()
    ensures { GoesAsDeepAsScripts }
{}

/// Tokens that are no script are refused at one place.
pub fn tokens_are_refused_once()
    ensures { AreRefusedOnce }
{}
