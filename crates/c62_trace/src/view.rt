//! What of a run is seen in its trace, and by what names.

ghost use Rattle.std.specs.Prelude.{◌≡◌};
ghost use Rattle.std.specs.Option.{option_copied};
ghost use Rattle.c62_insn.specs.Insn.{operands_of};
ghost use Rattle.c62_listing.specs.Names.{target_name};
ghost use Rattle.c62_trace.specs.Line.{is_in, name_of};

use c62_insn::{Insn, Operands};
use c62_line::Label;
use c62_listing::label_text;

/// So many cycles from one on.
#[derive(Clone, Copy, PartialEq, Eq, Debug)]
pub struct Window {
    pub from: u64,
    pub count: u64,
}

impl Window {
    /// Whether a cycle is one of them.
    pub fn has(self, cycle: u64) -> bool
        ensures { result ≡ is_in self cycle }
    {
        self.from <= cycle && cycle - self.from < self.count
    }
}

/// What of a run is seen, and how it is called.
#[derive(Drop)]
pub struct View {
    /// The cycles whose events are told.
    pub window: Window,
    /// By number the labels of what branches go to, where it has one.
    pub names: Vec<Option<Label>>,
    /// The address at which memory begins.
    pub base: u32,
}

impl View {
    /// The label of this number.
    fn name(&self, number: u8) -> &str
        ensures { result.now ≡ name_of self.now.names.items number }
    {
        match self.names.get(usize::from(number)) {
            Some(Some(label)) => label_text(label),
            _ => "",
        }
    }

    /// The label that an instruction branches to, if it does.
    pub(crate) fn target(&self, insn: Insn) -> &str
        ensures { result.now ≡ target_name (name_of self.now.names.items) (operands_of insn) }
    {
        match insn.operands() {
            Operands::Block(number) => self.name(number),
            _ => "",
        }
    }
}
