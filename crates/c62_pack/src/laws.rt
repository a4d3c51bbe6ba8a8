//! The headline of the project. The function does nothing: what it ensures is a law.

ghost use Rattle.c62_board.specs.State.{BoardState};
ghost use Rattle.c62_pack.specs.Headline.{Headline};

/// Of every board: each packet is one that the rules allow, each dependence between placed
/// instructions keeps its distance, and the board is its journal replayed from nothing; and where its
/// whole block is placed, its packets leave what the block leaves run serially, from every sound machine.
pub fn headline()
    ensures { (board : BoardState) → Headline board }
{}
