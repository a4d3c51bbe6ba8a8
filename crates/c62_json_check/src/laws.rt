//! The law of the document. The function does nothing: what it ensures is proved of the definitions that other contracts cite.

ghost use Rattle.std.specs.Prelude.{List};
ghost use Rattle.c62_read.specs.Block.{Serial};
ghost use Rattle.c62_packet.specs.Packed.{Packed};
ghost use Rattle.c62_json_check.specs.Checked.{TellsTheSame};

/// A check's lines and its document tell the same facts, and say alike whether all is the same.
pub fn documents_tell_what_lines_tell()
    ensures { (program : List Serial) (packets : List Packed) → TellsTheSame program packets }
{}
