//! What a reader of the definitions may rely on.
ghost use Rattle.gaz_words.specs.WorkedWords.{WorkedWords};

/// What words mean, on worked examples.
pub fn worked_words()
    ensures { WorkedWords }
{}
