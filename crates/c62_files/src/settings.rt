//! The words of a file of settings (docs/COMMANDS.md, "Files").

ghost use Rattle.std.specs.Prelude.{◌≡◌, ◌∷◌, ◌++◌, ℕ, List, [], IfOk, OnOk, map};
ghost use Rattle.c62_files.specs.Settings.{after, ended, is_part, told, settings_words};

use std::alloc::{AllocError, Global};
use std::mem;

/// Where a byte of a file of settings stands.
#[derive(Clone, Copy, PartialEq, Eq, Debug)]
pub enum Place {
    /// At the start of a line.
    Start,
    /// Behind the start.
    Within,
    /// Behind the start of a comment.
    Comment,
}

/// What was read of a file of settings: whole words, one that isn't yet, and where the next byte stands.
#[derive(Debug, Drop)]
pub struct Reading {
    pub words: Vec<Vec<u8>>,
    pub word: Vec<u8>,
    pub place: Place,
}

/// Whether a byte is part of a word.
fn is_part(place: Place, byte: u8) -> bool
    ensures { result ≡ is_part place byte }
{
    match place {
        Place::Comment => false,
        Place::Start => !matches!(byte, b'\n' | b'\r' | b'\t' | b' ' | b';' | b'*'),
        Place::Within => !matches!(byte, b'\n' | b'\r' | b'\t' | b' ' | b';'),
    }
}

/// Where the byte behind this one stands.
fn after(place: Place, byte: u8) -> Place
    ensures { result ≡ after place byte }
{
    match (place, byte) {
        (_, b'\n') => Place::Start,
        (Place::Comment, _) | (_, b';') | (Place::Start, b'*') => Place::Comment,
        (Place::Start | Place::Within, _) => Place::Within,
    }
}

impl Reading {
    /// Ends the word that is being read, where there is one.
    fn end_word(&mut self, alloc: Global) -> Result<(), AllocError>
        ensures words { OnOk result (map (λ word. word.items) self.new.words.items ≡ map (λ word. word.items) self.old.words.items ++ ended self.old.word.items) }
        ensures word { OnOk result (self.new.word.items ≡ []) }
        ensures place { OnOk result (self.new.place ≡ self.old.place) }
    {
        if self.word.is_empty() {
            return Ok(());
        }
        let word = mem::replace(&mut self.word, Vec::new(alloc));
        self.words.push(word)?;
        Ok(())
    }

    /// Reads a byte.
    #[tactic(auto, using(crate::proofs::Readings::part_more, crate::proofs::Readings::end_told))]
    fn read(&mut self, alloc: Global, byte: u8) -> Result<(), AllocError>
        ensures { OnOk result ((rest : List ℕ) → told self.new rest ≡ told self.old (byte ∷ rest)) }
    {
        let next = after(self.place, byte);
        if is_part(self.place, byte) {
            self.word.push(byte)?;
            self.place = next;
            return Ok(());
        }
        self.end_word(alloc)?;
        self.place = next;
        Ok(())
    }
}

/// The words of a file of settings, one or more a line. A comment begins with `;`, or with `*` at the start of a line.
pub fn settings_words(alloc: Global, bytes: &[u8]) -> Result<Vec<Vec<u8>>, AllocError>
    ensures { IfOk result (λ words. map (λ word. word.items) words.items ≡ settings_words bytes.now) }
{
    let mut reading = Reading {
        words: Vec::new(alloc),
        word: Vec::new(alloc),
        place: Place::Start,
    };
    for byte in bytes {
        reading.read(alloc, *byte)?;
    }
    reading.end_word(alloc)?;
    Ok(reading.words)
}
