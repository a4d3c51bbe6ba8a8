//! Laws of pages. The functions do nothing: what each ensures is a law.

ghost use Rattle.std.specs.Prelude.{ℕ, List};
ghost use Rattle.c62_show.specs.declared.shown.Shown.{Shown};
ghost use Rattle.c62_page.specs.Laws.{AnglesAreTheSame, AreAllShown, HaveAllBars, HaveAllCauses, OwnIsTheSame};

/// With any other lines in its text, as many, and any other labels, a page has the same `<` and `>`, in their order, and what its
/// maker wrote is the same. So no line, with its operands and its comment, and no label puts an element into it, or ends one.
pub fn pages_have_their_own_elements()
    ensures angles { (text other : List ℕ) (shown others : List Shown) → AnglesAreTheSame text other shown others }
    ensures same { (text other : List ℕ) (shown others : List Shown) → OwnIsTheSame text other shown others }
{}

/// Each instruction of the packets has its cell in the page, in the row of its cycle; each of its landings has a bar.
pub fn instructions_have_cells()
    ensures cells { (text : List ℕ) (shown : List Shown) → AreAllShown text shown }
    ensures bars { (text : List ℕ) (shown : List Shown) → HaveAllBars text shown }
{}

/// Each cause that is given has its row in the page.
pub fn causes_have_rows()
    ensures { (text : List ℕ) (shown : List Shown) → HaveAllCauses text shown }
{}
