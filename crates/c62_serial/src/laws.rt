//! Laws of memory, faults and runs. The functions do nothing: what each ensures is a law, proved of
//! the definitions that all other contracts cite.

ghost use Rattle.std.specs.Prelude.{◌≡◌, ℕ, List, length, IsTrue};
ghost use Rattle.std.specs.List.Sorted.{IsStrictlyIncreasing};
ghost use Rattle.c62_op.specs.declared.register.Reg.{Reg as Register};
ghost use Rattle.c62_read.specs.declared.block.SerialInsn.{SerialInsn};
ghost use Rattle.c62_read.specs.Block.{Serial};
ghost use Rattle.c62_serial.specs.declared.state.TheConstants.{MEMORY_BYTES};
ghost use Rattle.c62_serial.specs.State.{Machine, IsSound};
ghost use Rattle.c62_serial.specs.Memory.{is_size, is_good};
ghost use Rattle.c62_serial.specs.Effect.{Act};
ghost use Rattle.c62_serial.specs.Serial.{Ran, after_act, serial};
ghost use Rattle.c62_serial.specs.Chain.{Standing, IsProgramChain};
ghost use Rattle.c62_serial.specs.Laws.{StoresItsBytes, LoadsWhatWasStored, StoresWordAsBytes, HoldsItsWord, JoinsLines, HoldsTheSame, ActsOnEach, DoesNothing, RunsInTurn, IfStorable, HasOneChain, LiesByItsAddress};

/// A store puts its bytes into memory, the lowest first, and changes no other.
pub fn stores_its_bytes()
    ensures { (memory : List ℕ) (address size value : ℕ)
        → IfStorable memory address size (StoresItsBytes memory address size value) }
{}

/// A load of what was stored gives the low bytes of the value.
pub fn loads_what_was_stored()
    ensures { (memory : List ℕ) (address size value : ℕ)
        → IfStorable memory address size (LoadsWhatWasStored memory address size value) }
{}

/// A word is stored as its four bytes are, one by one.
pub fn stores_word_as_bytes()
    ensures { (memory : List ℕ) (address value : ℕ)
        → IfStorable memory address 4 (StoresWordAsBytes memory address value) }
{}

/// An access is good where its address is a multiple of its size and it lies within memory, which
/// begins at a multiple of 4 and ends by 2^32.
pub fn lies_by_its_address()
    ensures { (base address size : ℕ) → LiesByItsAddress base address size }
{}

/// A register holds the word that was put into it, and the others keep theirs.
pub fn holds_its_word()
    ensures { (machine : Machine) (reg : Register) (value : ℕ) → IsSound machine
        → HoldsItsWord machine reg value }
{}

/// The faulted lines rise, and a line that joins them is one of them beside those that were.
pub fn joins_lines()
    ensures { (lines : List ℕ) (line : ℕ) → IsStrictlyIncreasing lines → JoinsLines lines line }
{}

/// A run keeps a machine sound: its registers and its bytes are as many, and its faulted lines rise.
pub fn keeps_machines_sound()
    ensures act { (line : ℕ) (act : Act) (machine : Machine) → IsSound machine
        → IsSound (after_act line act machine) }
    ensures run { (insns : List SerialInsn) (machine : Machine) → IsSound machine
        → IsSound (serial insns machine).machine }
{}

/// Sound machines with the same words, bytes and faulted lines are one.
pub fn tells_machines_by_what_they_hold()
    ensures { (one other : Machine) → IsSound one → IsSound other → HoldsTheSame one other → one ≡ other }
{}

/// After an instruction each register holds the last of its writes and each byte what it stored there,
/// else what they held, and its line has faulted where its access did.
pub fn acts_on_each()
    ensures { (line : ℕ) (act : Act) (machine : Machine) → IsSound machine → ActsOnEach line act machine }
{}

/// An instruction whose condition does not hold changes nothing and goes nowhere.
pub fn does_nothing()
    ensures { (ran : Ran) (entry : SerialInsn) → DoesNothing ran entry }
{}

/// The instructions of a block run in turn: first some of them, then the rest on what those left.
pub fn runs_in_turn()
    ensures { (first rest : List SerialInsn) (machine : Machine) → RunsInTurn first rest machine }
{}

/// From a sound machine a program has one chain under a limit.
pub fn has_one_chain()
    ensures { (program : List Serial) (opening : Machine) (limit : ℕ) → IsSound opening
        → HasOneChain program opening limit }
{}
