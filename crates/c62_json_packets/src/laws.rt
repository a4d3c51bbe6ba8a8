//! Laws of the definitions. The functions do nothing: what each ensures is a law.

ghost use Rattle.c62_packet.specs.Packed.{Packed};
ghost use Rattle.c62_json_packets.specs.Laws.{IsWhole};

/// The packets of a block have its instructions, each once and in their order.
#[tactic(auto, using(crate::proofs::Whole::whole))]
pub fn packets_are_whole()
    ensures { (block : Packed) → IsWhole block }
{}
