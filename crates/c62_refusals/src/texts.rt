//! The texts that calls are made on.

ghost use Rattle.std.specs.Prelude.{◌≡◌};
ghost use Rattle.std.specs.Option.{option_copied};
ghost use Rattle.c62_refusals.specs.Texts.{text_named};

/// A block in which an ejection withdraws four instructions.
const EJECTING: &str =
    "LDW *B4,B5\nLDW *B4,B6\nLDW *B4,B7\nADD B2,A2,B3\nADD A1,B1,A3\nADD A3,A3,A4\nADD A3,A3,A7\nADD A3,A3,A8\nMPY A5,B1,A2\nMPY A2,A2,A6\n";

/// The greatest common divisor of A4 and A5: three blocks, with branches to labels and to a register.
const BRANCHING: &str =
    "GCD: CMPEQ A4,A5,A1\n[A1] B DONE\nCMPLT A4,A5,A2\n[A2] SUB A5,A4,A5\n[!A2] SUB A4,A5,A4\nB GCD\nDONE: B B3\n";

/// The words from A4 on, scaled by A6 and stored from B4 on.
const STORING: &str =
    "SHL .S1 A6,16,A7\nOR .L1 A6,A7,A6\nWORD: LDW .D1T1 *A4++,A5\nMPYU .M1 A5,A6,A7\nMPYHU .M1 A5,A6,A8\nSHRU .S1 A7,16,A7\nADD .L1 A7,A8,A8\nSTW .D2T1 A8,*B4++\nSUB .D1 A1,1,A1\n[A1] B .S2 WORD\n";

/// The first example: three instructions, of which the last needs the other two.
const SUM: &str = "MVK 5,A1\nMVK 7,A2\nADD A1,A2,A3\n";

/// A block of six in which an ejection withdraws two instructions.
const SIX: &str =
    "LDW *B4,B5\nADD B2,A2,B3\nADD A1,B1,A3\nADD A3,A3,A4\nMPY A5,B1,A2\nMPY A2,A2,A6\n";

/// A loop that counts A1 down.
const LOOPING: &str = "L1: SUB A1,1,A1\n[A1] B L1\n";

/// The text of this name.
pub(crate) fn text_of(name: &str) -> Option<&'static str>
    ensures { option_copied result ≡ text_named name.now }
{
    match name {
        "ejecting" => Some(EJECTING),
        "branching" => Some(BRANCHING),
        "storing" => Some(STORING),
        "sum" => Some(SUM),
        "six" => Some(SIX),
        "looping" => Some(LOOPING),
        _ => None,
    }
}
