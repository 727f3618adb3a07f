//! What holds of every generated script. The functions do nothing; their contracts are the laws.
ghost use Rattle.script_gen.specs.Laws.{DrawsArePowers, GeneratedScriptsAreSound, GeneratedScriptsRun, GeneratedTextsAreRead};

/// The n-th draw is the seed times the n-th power of 48271, modulo 2^31 - 1.
pub fn draws_are_powers()
    ensures { DrawsArePowers }
{}

/// Up to 100,000 transactions a generated script is one that could have been read, but for the length of its text.
pub fn generated_scripts_are_sound()
    ensures { GeneratedScriptsAreSound }
{}

/// Sessions can run it.
pub fn generated_scripts_run()
    ensures { GeneratedScriptsRun }
{}

/// Its plain text is read as it, where that is no longer than a script may be.
pub fn generated_texts_are_read()
    ensures { GeneratedTextsAreRead }
{}
