//! Whether a line has more than one statement.

ghost use Rattle.std.specs.Prelude.{◌≡◌, nat_eq};
ghost use Rattle.std.specs.List.{list_any, starts_with};
ghost use Rattle.c62_adopt_code.specs.declared.quote.Quote.TheVariants.{Outside, Inside};
ghost use Rattle.c62_adopt_code.specs.Quote.{kinds_named, names_kind, opened_by, quote_behind, is_outside, is_string, parts};

/// What a byte of a line stands in.
#[derive(Clone, Copy, PartialEq, Eq, Debug)]
pub(crate) enum Quote {
    Outside,
    /// In a string.
    Inside,
    /// In a string, behind `\`.
    Escaped,
    /// Behind `'`, which takes the next byte as it is.
    Letter,
    /// Behind such a byte, where another `'` is of it.
    Closing,
}

/// What GNU's assembler has behind an `@` that parts nothing: the types of symbols and of sections.
const KINDS: [&[u8]; 12] = [
    b"function",
    b"object",
    b"tls_object",
    b"common",
    b"notype",
    b"gnu_unique_object",
    b"progbits",
    b"nobits",
    b"note",
    b"init_array",
    b"fini_array",
    b"preinit_array",
];

fn any_begins(names: &[&[u8]], bytes: &[u8]) -> bool
    ensures { result ≡ list_any (λ name. starts_with nat_eq bytes.now name.now) names.now }
{
    names.iter().any(|name| bytes.starts_with(name))
}

fn names_kind(bytes: &[u8]) -> bool
    ensures { result ≡ names_kind bytes.now }
{
    any_begins(&KINDS, bytes)
}

/// Behind a byte that stands in no string.
fn opened_by(b: u8) -> Quote
    ensures { result ≡ opened_by b }
{
    match b {
        b'"' => Quote::Inside,
        b'\'' => Quote::Letter,
        _ => Quote::Outside,
    }
}

/// Behind a byte of a string.
fn inside_behind(b: u8) -> Quote
    ensures { result ≡ quote_behind Inside b }
{
    match b {
        b'"' => Quote::Outside,
        b'\\' => Quote::Escaped,
        _ => Quote::Inside,
    }
}

impl Quote {
    fn behind(self, b: u8) -> Quote
        ensures { result ≡ quote_behind self b }
    {
        match self {
            Quote::Outside => opened_by(b),
            Quote::Inside => inside_behind(b),
            Quote::Escaped => Quote::Inside,
            Quote::Letter => Quote::Closing,
            Quote::Closing => {
                if b == b'\'' {
                    Quote::Outside
                } else {
                    opened_by(b)
                }
            }
        }
    }

    fn is_outside(self) -> bool
        ensures { result ≡ is_outside self }
    {
        matches!(self, Quote::Outside | Quote::Closing)
    }

    fn is_string(self) -> bool
        ensures { result ≡ is_string self }
    {
        matches!(self, Quote::Inside | Quote::Escaped)
    }
}

/// Whether another statement stands behind one, which GNU's assembler parts off by an `@`, or a string doesn't end.
pub(crate) fn parts(statement: &[u8]) -> bool
    ensures { result ≡ parts Outside statement.now }
{
    let mut quote = Quote::Outside;
    let mut rest = statement;
    while let [b, behind @ ..] = rest {
        if quote.is_outside() && *b == b';' {
            return false;
        }
        if quote.is_outside() && *b == b'@' && !names_kind(behind) {
            return true;
        }
        quote = quote.behind(*b);
        rest = behind;
    }
    quote.is_string()
}
