//! Laws of the definitions. The function does nothing: what it ensures are laws.

ghost use Rattle.std.specs.Prelude.{◌≡◌, ◌++◌, ℕ, List, length};
ghost use Rattle.c62_command.specs.declared.setting.Setting.{Setting as Given};
ghost use Rattle.c62_printing.specs.Dumping.{dumps};
ghost use Rattle.c62_serial.specs.State.{Machine};
ghost use Rattle.c62_files.specs.Words.{Text};
ghost use Rattle.c62_dumping.specs.Counts.{counts_in};
ghost use Rattle.c62_dumping.specs.Cut.{dumped_in, files_of, report_in};
ghost use Rattle.c62_dumping.specs.Laws.{memory_files};

/// What ends with the bytes that settings ask to write to files is parted into what stands before them and these, and each file gets
/// its own of them.
pub fn dumps_are_parted()
    ensures report { (report : List ℕ) (machine : Machine) (settings : List Given)
        → report_in (counts_in settings) (report ++ dumps machine settings) ≡ report }
    ensures dumped { (report : List ℕ) (machine : Machine) (settings : List Given)
        → dumped_in (counts_in settings) (report ++ dumps machine settings) ≡ dumps machine settings }
    ensures files { (names : List Text) (machine : Machine) (settings : List Given) → length names ≡ length (counts_in settings)
        → files_of names (counts_in settings) (dumps machine settings) ≡ memory_files names machine settings }
{}
