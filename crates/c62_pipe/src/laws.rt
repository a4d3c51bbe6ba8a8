//! Laws of chains. The functions do nothing: what each ensures is a law.

ghost use Rattle.std.specs.Prelude.{ℕ, List};
ghost use Rattle.c62_read.specs.Block.{Serial};
ghost use Rattle.c62_serial.specs.State.{Machine, IsSound};
ghost use Rattle.c62_packet.specs.Packed.{Packed};
ghost use Rattle.c62_pipe.specs.Alike.{ChainAlike};
ghost use Rattle.c62_pipe.specs.Chain.{RunsAlike, HasOneChain};

/// Packets of a program's blocks, in which every dependence keeps its distance, run as the program
/// does: the same chain and the same machine, from every sound machine and under every limit.
pub fn packets_run_as_their_program()
    ensures { (program : List Serial) (packets : List Packed) (opening : Machine) (limit : ℕ)
        → RunsAlike program packets opening limit }
{}

/// From a sound machine the packets of some blocks have one chain under a limit: the same blocks,
/// one after the other, the same machine, and the same end.
pub fn packets_have_one_chain()
    ensures { (packets : List Packed) (opening : Machine) (limit : ℕ) → IsSound opening
        → HasOneChain packets opening limit }
{}

/// Packets that are alike but for lines run alike: the same chain, which takes the same cycles, and
/// the same machine but for the lines that faulted, which are those of the same places.
pub fn packets_alike_run_alike()
    ensures { (packets others : List Packed) (opening opening' : Machine) (limit : ℕ)
        → ChainAlike packets others opening opening' limit }
{}
