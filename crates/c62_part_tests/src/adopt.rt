//! Lines and texts of packets, and what is read of them before a command adopts them.

use crate::expect::equal_in;
use c62_adopt_cut::read_cut;
use c62_adopt_line::read_line;
use c62_adopt_spell::spelled_text;
use c62_line::What;
use c62_listing::label_text;
use c62_op::InstructionSet;
use std::alloc::Global;
use std::test::Fail;

/// Lines that are refused by themselves, and the name of their fault. In a text they say something else.
const REFUSED: [(&str, &str); 8] = [
    (".data", "Directive"),
    (".section .rodata", "Directive"),
    (".sect \".data\"", "Directive"),
    (".section _text", "Directive"),
    (" * no comment", "UnknownMnemonic"),
    ("#APP", "UnknownMnemonic"),
    ("LDW .D1T1 *+A4[(8)],A5", "BadOperand"),
    ("ADD .L1 (4),A1,A2", "BadOperand"),
];

/// Lines that stand as they are, whatever spellings are read.
const SAME: [&str; 33] = [
    "",
    " \t",
    "L:",
    " MVK .S1 1,A1 ; /* x",
    "|| [A1] ADD .L1 A1,A2,A3",
    " MVKL .S1 0xfffffffa,A1",
    " B .S2 SP",
    "RET .S2 B3",
    "NOP",
    "b .s1 L",
    "; /* x",
    // What can't be read in any spelling.
    "FOO .S1 A1",
    "FOO A1",
    "IDLE",
    "idle ; x",
    "A1",
    "9L",
    " FOO",
    "L: M: NOP",
    "L M: NOP",
    "A1: FOO",
    " MVK .S1 1,A1 /* x",
    " MVK .S1 /* x 1,A1",
    " MVK .S1 0b2,A1",
    " MVK .S1 0b,A1",
    " MVK .S1 0X,A1",
    " MVK .S1 0X123456789,A1",
    " MVK .S1 5 3,A1",
    " LDW .D1T1 *+A4(8,A5",
    " LDW .D1T1 *+A4[(A2)],A5",
    " MVK .S1 40000+1,A1",
    "x .data",
    "NOP\rNOP",
];

/// Texts with a faulty line, the blocks of the lines above it, and their cycles and the fault. A block has its label, the cycle in
/// which it begins, and the line and the cycle of each of its instructions, and where one branches to.
const FAULTY: [&str; 11] = [
    "FOO\n | 0 line 1: UnknownMnemonic",
    "FOO\nBAR\n ADD A1,A2,A3\n | 0 line 1: UnknownMnemonic",
    "MVK .S1 1,A1\n NOP 2\nL: MVK .S1 2,A1\n|| MVK .S2 2,B1\n FOO\nM: MVK .S1 3,A1\n NOP 9\n | @0 1:0\nL@3 3:0 4:0\n4 line 5: UnknownMnemonic",
    // Nothing of the line itself is left: neither its label, nor what it says, nor its cycles.
    "MVK .S1 1,A1\nL: FOO\n | @0 1:0\n1 line 2: UnknownMnemonic",
    "L: MVK .S1 1,A1\nL: NOP 9\n | L@0 1:0\n1 line 2: DuplicateLabel",
    "MVK .S1 1,A1\nL:\n|| MVK .S2 1,B1\n | @0 1:0\nL@1\n1 line 3: ParallelBar",
    "NOP 4\n ADD A1,A2,A3\n NOP 4\n | 4 line 2: UnitWanted",
    // An empty block stays, and one that is over.
    "L:\n NOP 3\n FOO\n | L@0\n3 line 3: UnknownMnemonic",
    "L: B .S2 L\n NOP 5\n MVK .S1 1,A1\n FOO\n | L@0 1:0>L\n@6 3:0\n7 line 4: UnknownMnemonic",
    // What is in flight there, and a branch to a label below.
    "LDW .D1T1 *A4,A5\n FOO\n NOP 4\n | @0 1:0\n1 line 2: UnknownMnemonic",
    "B .S2 M\n NOP 5\n FOO\nM:\n | @0 1:0>M\n6 line 3: UnknownMnemonic",
];

/// The blocks of a text above its first faulty line, and their cycles and the fault.
fn told_above(alloc: Global, text: &str) -> Result<String, Fail> {
    let cut = read_cut(InstructionSet::Core, alloc, text.as_bytes())?;
    let mut out = String::new(alloc);
    for draft in &cut.drafts {
        if let Some(label) = &draft.label {
            out.push_str(label_text(label))?;
        }
        out.push_str(&format!(in alloc; "@{}", draft.start)?)?;
        for issue in &draft.issues {
            out.push_str(&format!(in alloc; " {}:{}", issue.line, issue.cycle)?)?;
            if let Some(target) = &issue.target {
                out.push('>')?;
                out.push_str(label_text(target))?;
            }
        }
        out.push('\n')?;
    }
    if let Some(fault) = cut.fault {
        out.push_str(&format!(in alloc; "{} {fault}", cut.cycles)?)?;
    }
    Ok(out)
}

#[test]
fn lines_and_texts_are_read(rt: HostRuntime) -> Result<(), Fail> {
    let alloc = rt.alloc();
    let mut text = Vec::new(alloc);
    for (line, want) in &REFUSED {
        match read_line(InstructionSet::Core, &mut text, line.as_bytes()) {
            Ok(_) => assert!(rt; false, "{line} is read"),
            Err(fault) => equal_in(&rt, line, &fault.name(), want),
        }
    }
    // A directive behind a label is read as the label alone.
    let line = read_line(InstructionSet::Core, &mut text, b"L: .sect \".text:f\"")?;
    let label = line.label.as_ref().expect(&rt, "a label");
    assert!(rt; !line.beside && line.what == What::Empty && label_text(label) == "L");
    for line in &SAME {
        let spelled = spelled_text(InstructionSet::Core, alloc, line.as_bytes())?;
        let spelled = str::from_utf8(&spelled)?.trim_end_matches('\n');
        equal_in(&rt, line, &spelled, line);
    }
    for row in &FAULTY {
        let (text, want) = row.split_once(" | ").expect(&rt, "a text");
        equal_in(&rt, row, &told_above(alloc, text)?.as_str(), &want);
    }
    Ok(())
}
