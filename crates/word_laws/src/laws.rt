//! The laws. Each function does nothing: what it ensures is the law.
ghost use Rattle.word_laws.specs.Laws.{LinesAreRead};
ghost use Rattle.word_laws.specs.Samples.{LinesAreRefused};

/// The words of a request, its options in any order and each spelled either way, ask for exactly that request.
pub fn lines_are_read()
    ensures { LinesAreRead }
{}

/// Lines that lack an option, have one twice, one of another command, a word more or a value out of its form ask for
/// nothing.
pub fn lines_are_refused()
    ensures { LinesAreRefused }
{}
