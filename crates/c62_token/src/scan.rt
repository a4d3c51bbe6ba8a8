//! Which bytes a line has.

ghost use Rattle.std.specs.Prelude.{◌≡◌, ◌==◌, ◌&&◌, ◌||◌};
ghost use Rattle.std.specs.List.{list_all, list_any};
ghost use Rattle.c62_token.specs.Token.{is_allowed};

/// What is known of bytes that were all looked at.
#[derive(Clone, Copy)]
pub struct Scan {
    /// Whether each may stand in a line.
    pub allowed: bool,
    /// Whether one is a colon.
    pub colon: bool,
}

fn is_allowed(b: u8) -> bool
    ensures { result ≡ is_allowed b }
{
    b == b'\t' || 32 <= b && b < 127
}

/// Looks at every byte, whatever the others are: so the compiler compares many at once.
#[inline(always)]
fn scan_bytes(bytes: &[u8]) -> Scan
    ensures allowed { result.allowed ≡ list_all is_allowed bytes.now }
    ensures colon { result.colon ≡ list_any (λ b. b == 58) bytes.now }
{
    let mut allowed = true;
    let mut colon = false;
    for b in bytes {
        allowed &= is_allowed(*b);
        colon |= *b == b':';
    }
    Scan { allowed, colon }
}

impl Scan {
    /// What is known of these bytes and others.
    #[inline(always)]
    fn with(self, other: Scan) -> Scan
        ensures allowed { result.allowed ≡ (self.allowed && other.allowed) }
        ensures colon { result.colon ≡ (self.colon || other.colon) }
    {
        Scan {
            allowed: self.allowed & other.allowed,
            colon: self.colon | other.colon,
        }
    }
}

/// How many bytes are compared at once.
const STEP: usize = 16;

/// Which bytes a line has. The last step may overlap the one before.
#[inline(always)]
pub fn scan_line(line: &[u8]) -> Scan
    ensures allowed { result.allowed ≡ list_all is_allowed line.now }
    ensures colon { result.colon ≡ list_any (λ b. b == 58) line.now }
{
    if line.len() < STEP {
        return scan_bytes(line);
    }
    let mut known = scan_bytes(&[]);
    let mut start = 0;
    while STEP <= line.len() - start {
        known = known.with(scan_bytes(&line[start..start + STEP]));
        start += STEP;
    }
    known.with(scan_bytes(&line[line.len() - STEP..]))
}
