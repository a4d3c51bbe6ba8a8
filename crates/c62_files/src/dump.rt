//! Memory that is written to files: what is, and where to (docs/COMMANDS.md, "Files").

ghost use Rattle.std.specs.Prelude.{◌≡◌, option_map};
ghost use Rattle.c62_files.specs.Words.{equals_parts, extent_of, name_of};

/// What stands before the first `=` of a word, and what stands behind it.
pub fn equals_parts<'a>(word: &'a str) -> Option<(&'a str, &'a str)>
    ensures { option_map (λ parts. (parts.0.now, parts.1.now)) result ≡ equals_parts word.entry.now }
{
    word.split_once('=')
}

/// `ADDRESS+LENGTH` of `ADDRESS+LENGTH=NAME`, and nothing where there is no name.
pub(crate) fn extent_of(word: &str) -> &str
    ensures { result.now ≡ extent_of word.now }
{
    match equals_parts(word) {
        Some((extent, _)) => extent,
        None => "",
    }
}

/// The name of the file that the memory of `ADDRESS+LENGTH=NAME` goes to.
pub(crate) fn name_of<'a>(word: &'a str) -> Option<&'a str>
    ensures { option_map (λ name. name.now) result ≡ name_of word.entry.now }
{
    match equals_parts(word) {
        Some((_, name)) => Some(name),
        None => None,
    }
}
