//! A document of `lint`.

/// What is found in a text, as a document.
#[derive(Drop)]
pub struct LintedDocument {
    /// The text of the document.
    pub text: Vec<u8>,
    /// Whether there is a fault.
    pub faulty: bool,
}
