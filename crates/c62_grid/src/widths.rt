//! How wide the columns of a picture are.

ghost use Rattle.std.specs.Prelude.{◌≡◌};
ghost use Rattle.c62_grid.specs.Widths.{least_widths, widened};

use c62_packet::Placed;
use itoa::Buffer;

/// How wide the columns are, for all blocks of a text.
#[derive(Clone, Copy, PartialEq, Eq, Debug)]
pub struct Widths {
    /// For the line of an instruction.
    pub line: usize,
    /// For its mnemonic, and for what stands in its place where there is none.
    pub word: usize,
}

impl Widths {
    /// Where there is no instruction: room for `100%`.
    pub fn least() -> Widths
        ensures { result ≡ least_widths }
    {
        Widths { line: 0, word: 4 }
    }

    /// With room for one more instruction.
    pub fn with(self, placed: &Placed) -> Widths
        ensures { result ≡ widened self placed.now }
    {
        let mut buffer = Buffer::new();
        Widths {
            line: self.line.max(buffer.format(placed.line).len()),
            word: self.word.max(placed.insn.op().mnemonic().len()),
        }
    }
}
