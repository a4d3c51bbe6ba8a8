//! What an option wants of the word behind it.

ghost use Rattle.std.specs.Prelude.{◌≡◌, option_map};
ghost use Rattle.c62_files.specs.Words.{has_value, is_of_trace, takes_value, wanted_by, wanted_by_command, option_of};

/// What a word is, by the one before it.
#[derive(Clone, Copy, PartialEq, Eq, Debug)]
pub enum Wanted {
    /// The command: the first word.
    Command,
    /// What it is by itself.
    Nothing,
    /// The value of an option of the command.
    Value,
    /// The name of the file that the answer goes to: behind `-o`.
    Output,
    /// The name of a file of settings: behind `--settings`.
    Settings,
    /// An address and the name of a file whose bytes are put there: behind `--load`.
    Load,
    /// An address and a length of memory that is printed: behind `--print`.
    Print,
    /// An address and a length of memory, and the name of the file that it goes to: behind `--dump`.
    Dump,
    /// The address at which memory begins: behind `--base`.
    Base,
    /// A word for the command, and so are all behind it: behind `help`.
    Help,
}

/// Whether the word is an option of a trace whose value is the word behind it.
fn is_of_trace(word: &str) -> bool
    ensures { result ≡ is_of_trace word.now }
{
    word == "--vcd" || word == "--from-cycle" || word == "--cycles-traced"
}

/// Whether the word is an option of a command whose value is the word behind it.
fn takes_value(word: &str) -> bool
    ensures { result ≡ takes_value word.now }
{
    word == "--eject"
        || word == "--search"
        || word == "--blocks"
        || word == "--cycles"
        || word == "--from"
        || word == "--most"
        || word == "--as"
        || word == "--trips"
        || word == "--apart"
        || is_of_trace(word)
}

impl Wanted {
    /// What the word behind a command is.
    pub fn by_command(command: &str) -> Wanted
        ensures { result ≡ wanted_by_command command.now }
    {
        if command == "help" {
            Wanted::Help
        } else {
            Wanted::Nothing
        }
    }

    /// What the word behind this one is, which is no command and no value.
    pub fn by(word: &str) -> Wanted
        ensures { result ≡ wanted_by word.now }
    {
        if word == "-o" {
            Wanted::Output
        } else if word == "--settings" {
            Wanted::Settings
        } else if word == "--load" {
            Wanted::Load
        } else if word == "--print" {
            Wanted::Print
        } else if word == "--dump" {
            Wanted::Dump
        } else if word == "--base" {
            Wanted::Base
        } else if takes_value(word) {
            Wanted::Value
        } else {
            Wanted::Nothing
        }
    }

    /// The option that wants a word of its own: the name of a file, what is printed or goes to a file, or where memory begins.
    pub fn option(self) -> Option<&'static str>
        ensures { option_map (λ option. option.now) result ≡ option_of self }
    {
        match self {
            Wanted::Output => Some("-o"),
            Wanted::Settings => Some("--settings"),
            Wanted::Load => Some("--load"),
            Wanted::Print => Some("--print"),
            Wanted::Dump => Some("--dump"),
            Wanted::Base => Some("--base"),
            Wanted::Command | Wanted::Nothing | Wanted::Value | Wanted::Help => None,
        }
    }
}

/// Whether the word behind this one is the value of an option.
#[tactic(auto, unfolding(crate::specs::Words::has_value))]
pub fn has_value(word: &str) -> bool
    ensures { result ≡ has_value word.now }
{
    match Wanted::by(word) {
        Wanted::Command | Wanted::Nothing | Wanted::Help => false,
        Wanted::Value
        | Wanted::Output
        | Wanted::Settings
        | Wanted::Load
        | Wanted::Print
        | Wanted::Dump
        | Wanted::Base => true,
    }
}
