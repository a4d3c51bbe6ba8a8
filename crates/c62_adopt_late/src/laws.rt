//! Laws of what is read too early. The functions do nothing: what each ensures is a law.

ghost use Rattle.c62_adopt_cut.specs.Text.{Cut};
ghost use Rattle.c62_adopt_late.specs.Laws.{LateIsTold};

/// A register is told exactly where one is read below a block before what lands in it there, and nothing below has set it.
pub fn late_registers_are_told()
    ensures { (cut : Cut) → LateIsTold cut }
{}
