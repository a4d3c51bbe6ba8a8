//! What is wrong, in one sentence for each fault.

ghost use Rattle.std.specs.Prelude.{◌≡◌};
ghost use Rattle.c62_explain.specs.Sentence.{form_sentence, sentence};

use c62_insn::FormFault;
use c62_line::Cause;

fn form_sentence(fault: FormFault) -> &'static [u8]
    ensures { result.now ≡ form_sentence fault }
{
    match fault {
        FormFault::BadCondition => b"a condition is A1, A2, B0, B1 or B2",
        FormFault::ConstantRange => b"this constant is outside the ranges of the mnemonic",
        FormFault::TwoCrossed => b"both sources are on the side other than the destination's",
        FormFault::BadSide => b"a register or the unit is on the wrong side",
        FormFault::NoUnit => b"no unit, or not the written one, takes these operands",
    }
}

/// What is wrong with a line that has this fault.
pub fn sentence(cause: Cause) -> &'static [u8]
    ensures { result.now ≡ sentence cause }
{
    match cause {
        Cause::NotAscii => b"this byte is neither printable ASCII nor a tab",
        Cause::LineTooLong => b"a line has at most 255 bytes",
        Cause::BadLabel => b"a colon ends a label, and what is before this one isn't a label",
        Cause::DuplicateLabel => b"an earlier line has this label",
        Cause::UnknownMnemonic => b"a mnemonic is wanted here",
        Cause::BadUnit => b"the mnemonic doesn't run on this unit",
        Cause::BadOperand => b"no form of the instruction goes on like this",
        Cause::Form(fault) => form_sentence(fault),
        Cause::ParallelBar => b"serial text has no parallel bars",
        Cause::Directive => b"serial text has no directives",
        Cause::UnknownTarget => b"no line has this label",
        Cause::TooManyInstructions => b"a block has at most 256 instructions",
        Cause::TooManyBlocks => b"a text has at most 64 blocks",
        Cause::TextTooLong => b"a text has at most 1,048,576 bytes",
        Cause::Memory => b"memory ran out",
    }
}
