//! What a line says.

use crate::label::Label;
use c62_insn::Insn;

/// What a line says behind its label.
#[derive(PartialEq, Eq, Debug, Drop)]
pub enum What {
    /// Nothing, or a comment.
    Empty,
    /// So many cycles without an instruction.
    Nop(u8),
    /// An instruction.
    Insn(Insn),
    /// A branch to a label. The number of its block is 0 and means nothing.
    Jump(Insn, Label),
}

/// What a line says behind its label, where a branch's label still stands in the line.
#[derive(Clone, Copy)]
pub enum Statement<'a> {
    Empty,
    Nop(u8),
    Insn(Insn),
    Jump(Insn, &'a [u8]),
}

impl Statement<'_> {
    ghost use Rattle.std.specs.Prelude.{◌≡◌, IsTrue};
    ghost use Rattle.c62_line.specs.Line.{said_of, statement_of, names_label};

    /// The same with a label of its own.
    pub fn owned(self) -> What
        requires { IsTrue (names_label self) }
        ensures { said_of result ≡ statement_of self.entry }
    {
        match self {
            Statement::Empty => What::Empty,
            Statement::Nop(cycles) => What::Nop(cycles),
            Statement::Insn(insn) => What::Insn(insn),
            Statement::Jump(insn, label) => What::Jump(insn, Label::new(label)),
        }
    }
}

/// What a line says.
#[derive(PartialEq, Eq, Debug, Drop)]
pub struct Reading {
    pub label: Option<Label>,
    pub what: What,
}
