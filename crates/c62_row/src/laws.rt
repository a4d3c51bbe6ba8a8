//! Laws of rows, in the words of the packet rules. The functions do nothing: what each ensures is a law, proved of the
//! definitions that the contracts of a [`Row`](crate::Row) cite.

ghost use Rattle.std.specs.Prelude.{ℕ, Option};
ghost use Rattle.c62_rules.specs.PacketRules.{Issue, Issues};
ghost use Rattle.c62_row.specs.declared.row.Row.{Row as Taken};
ghost use Rattle.c62_rules.specs.declared.resource.CycleRule.{CycleRule};
ghost use Rattle.c62_row.specs.declared.row.Uses.{Uses as Used};
ghost use Rattle.c62_row.specs.Issued.{RowDecides, RowFollows, RowIsLeft, RowStays, RowIsEmpty};

/// With one instruction more, all packet rules are kept in its cycle exactly where its row has nothing against it, and else
/// the row tells the first rule that is broken.
pub fn rows_decide()
    ensures { (row : Taken) (uses : Used) (told : Option CycleRule) (issues : Issues) (i : ℕ) (p : Issue) → RowDecides row uses told issues i p }
{}

/// The row of a cycle stays its row where an instruction is added or removed, and those of other cycles stay as they are.
pub fn rows_follow()
    ensures empty { (row : Taken) (cycle : ℕ) (issues : Issues) → RowIsEmpty row cycle issues }
    ensures added { (old new : Taken) (uses : Used) (issues : Issues) (i : ℕ) (p : Issue) → RowFollows old new uses issues i p }
    ensures removed { (old new : Taken) (uses : Used) (issues : Issues) (i : ℕ) (p : Issue) → RowIsLeft old new uses issues i p }
    ensures others { (row : Taken) (cycle : ℕ) (issues : Issues) (i : ℕ) (p : Issue) → RowStays row cycle issues i p }
{}
