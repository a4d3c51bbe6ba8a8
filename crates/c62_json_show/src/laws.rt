//! Laws of the definitions. The functions do nothing: what each ensures is a law.

ghost use Rattle.std.specs.Prelude.{List};
ghost use Rattle.c62_packet.specs.declared.placed.Placed.{Placed};
ghost use Rattle.c62_json_show.specs.Laws.{AreThoseOfTheGrid};

/// What lands by a document is what lands by the grid of a picture, in the same order, each with the line of its instruction.
pub fn landings_are_those_of_the_grid()
    ensures { (placed : List Placed) → AreThoseOfTheGrid placed }
{}
