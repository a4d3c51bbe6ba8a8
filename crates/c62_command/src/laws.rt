//! Laws of the definitions. The functions do nothing: what each ensures is a law.

ghost use Rattle.std.specs.Prelude.{ℕ, List};
ghost use Rattle.clap.specs.Words.{Text};
ghost use Rattle.c62_command.specs.CommandLine.{TakesLimits};
ghost use Rattle.c62_command.specs.Settings.{ArePrintedOfMemory};

/// Where clap takes the words, no number of an option is made up: it is the one that was given, or the one for none.
pub fn takes_limits()
    ensures { (words : List Text) → TakesLimits words }
{}

/// Whatever settings words say, all values that these print lie in memory, and so do all bytes that they write to files.
pub fn prints_are_of_memory()
    ensures { (texts : List (List ℕ)) → ArePrintedOfMemory texts }
{}
