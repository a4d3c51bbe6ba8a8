//! The packets of a text of packets.

ghost use Rattle.std.specs.Prelude.{◌≡◌, ◌<◌, ◌≤◌, ◌++◌, ◌∷◌, [], All, length, map, option_map, Ok, MatchResult, IfOk, OnOk, IsTrue};
ghost use Rattle.std.specs.List.{AllZip};
ghost use Rattle.c62_read.specs.declared.limits.TheConstants.{MOST_BLOCKS};
ghost use Rattle.c62_packet.specs.Packets.{is_closed};
ghost use Rattle.c62_adopt_cut.specs.Text.{text_cut};
ghost use Rattle.c62_adopt_cut.specs.Drafted.{draft_of, refusal_of, cut_of};
ghost use Rattle.c62_adopt_cut.specs.Flight.{first_in_flight, or_behind};
ghost use Rattle.c62_adopt.specs.Answer.{IsAdopted, IsAdoptedFrom, LacksCode, Refuses, RefusesCut, code_cut, code_read};
ghost use Rattle.c62_adopt_late.specs.Late.{first_late};
ghost use Rattle.c62_adopt.specs.Blocks.{IsBlockOf};
ghost use Rattle.c62_adopt.specs.Judged.{AreLawful};
ghost use Rattle.c62_adopt.specs.Packing.{IsSound};

use crate::breach::lists_of;
use crate::fault::AdoptFault;
use c62_adopt_code::code_of;
use c62_adopt_cut::{Cut, Draft, MOST_BYTES, TextFault, cycles_lacking, first_in_flight, read_cut};
use c62_adopt_late::{Late, first_late};
use c62_line::copied_label;
use c62_op::InstructionSet;
use c62_packet::{PacketBlock, Packets, Placed};
use std::alloc::{AllocError, Global};

/// What a text is adopted as.
#[derive(Drop)]
pub struct Adopted {
    pub packets: Packets,
    /// How many cycles were added to drain the text.
    pub added: u64,
    /// The first register that is read below a block of the text before what lands in it there.
    pub late: Option<Late>,
}

fn put(packets: &mut Packets, block: PacketBlock) -> Result<(), AllocError>
    requires { length packets.old < MOST_BLOCKS }
    ensures { OnOk result (packets.new ≡ packets.old ++ block ∷ []) }
{
    match packets.push(block) {
        Ok(()) => Ok(()),
        Err((_, error)) => Err(error),
    }
}

/// The packet blocks of the blocks of a text, whose instructions these lists have.
fn packets_of(
    isa: InstructionSet,
    alloc: Global,
    drafts: &[Draft],
    lists: Vec<Vec<Placed>>,
) -> Result<Packets, AllocError>
    requires few { length drafts.now ≤ MOST_BLOCKS }
    requires sound { All (λ draft. IsSound isa (map draft_of drafts.now) (draft_of draft)) drafts.now }
    requires lawful { AllZip (λ draft list. AreLawful (map draft_of drafts.now) (draft_of draft).issues list.items)
        drafts.now lists.items }
    ensures { IfOk result (AllZip (IsBlockOf (map draft_of drafts.now)) (map draft_of drafts.now)) }
{
    let mut packets = Packets::new(alloc);
    let mut rest = lists.into_iter();
    for draft in drafts {
        let Some(list) = rest.next() else {
            unreachable!()
        };
        let block = PacketBlock::of_lawful(copied_label(&draft.label), list);
        put(&mut packets, block)?;
    }
    Ok(packets)
}

/// The first fault that a line has but for the packet rules.
fn fault_of(cut: &Cut, drain: bool) -> Option<TextFault>
    ensures { option_map refusal_of result ≡ or_behind (cut_of cut.now).fault (first_in_flight drain (cut_of cut.now)) }
{
    match cut.fault {
        Some(fault) => Some(fault),
        None => first_in_flight(cut, drain),
    }
}

/// The packets of a text's code. Where this is drained, the cycles that lack are added before the ends of its blocks; otherwise none are.
fn adopt_code(
    isa: InstructionSet,
    alloc: Global,
    code: &[u8],
    drain: bool,
) -> Result<Adopted, AdoptFault>
    ensures adopted { MatchResult result (λ adopted. IsAdoptedFrom drain (text_cut isa code.now) adopted.packets adopted.added) (λ fault. RefusesCut drain (text_cut isa code.now) fault) }
    ensures late { IfOk result (λ adopted. adopted.late ≡ first_late (text_cut isa code.now)) }
    ensures closed { IfOk result (λ adopted. IsTrue (is_closed adopted.packets)) }
{
    let cut = read_cut(isa, alloc, code)?;
    let lists = match lists_of(isa, alloc, &cut.drafts)? {
        Ok(lists) => lists,
        Err((line, rule)) => return Err(AdoptFault::Rule(line, rule)),
    };
    if let Some(fault) = fault_of(&cut, drain) {
        return Err(AdoptFault::Text(fault));
    }
    let packets = packets_of(isa, alloc, &cut.drafts, lists)?;
    Ok(Adopted {
        packets,
        added: cycles_lacking(&cut),
        late: first_late(&cut),
    })
}

/// The code of a text of packets, which is what `adopt` and `exec` read of it (docs/ADOPT.md, "Sections"). A text that is too long isn't looked
/// at: the bytes that show it are its code.
///
/// # Errors
///
/// `Code` for the first line that keeps the text from having code. `Memory` where memory ran out, which may come in place of any answer.
#[tactic(auto, using(crate::proofs::CodeLemmas::long_read, crate::proofs::CodeLemmas::short_read, crate::proofs::CodeLemmas::lacks_code))]
pub fn read_code(isa: InstructionSet, alloc: Global, text: &[u8]) -> Result<Vec<u8>, AdoptFault>
    ensures { MatchResult result (λ code. code_read isa text.now ≡ Ok code.items) (λ fault. LacksCode isa text.now fault) }
{
    if MOST_BYTES < text.len() {
        let mut code = Vec::new(alloc);
        code.extend_from_slice(&text[..MOST_BYTES + 1])?;
        return Ok(code);
    }
    match code_of(isa, alloc, text) {
        Ok(code) => Ok(code),
        Err(fault) => Err(AdoptFault::from(fault)),
    }
}

/// The packets of a text of packets, as people and compilers write them (docs/ADOPT.md). Each instruction stands in the cycle and
/// on the unit in which the text has it, and each branch to a label goes to a block that has it. Where the text is drained, the
/// cycles that lack are added before the ends of its blocks; otherwise none are. Of a text that lacks cycles the first register is told that is read
/// below a block before what lands in it there.
///
/// # Errors
///
/// `Code` for the first line that keeps the text from having code. Where it has some, `Rule` for the first line whose instruction breaks a
/// packet rule together with those above it in its block, as far as the text is read. `Text` for the first line that has another fault by itself
/// or because of the lines above it, and else for the first that has one because of the lines below it. `Memory` where memory ran out, which may
/// come in place of any answer.
#[tactic(auto, using(crate::proofs::CodeLemmas::adopted_by, crate::proofs::CodeLemmas::late_by, crate::proofs::CodeLemmas::refused_by, crate::proofs::CodeLemmas::refused_uncoded))]
pub fn adopt(
    isa: InstructionSet,
    alloc: Global,
    text: &[u8],
    drain: bool,
) -> Result<Adopted, AdoptFault>
    ensures adopted { MatchResult result (λ adopted. IsAdopted isa drain text.now adopted.packets adopted.added) (λ fault. Refuses isa drain text.now fault) }
    ensures late { IfOk result (λ adopted. adopted.late ≡ first_late (code_cut isa text.now)) }
    ensures closed { IfOk result (λ adopted. IsTrue (is_closed adopted.packets)) }
{
    match read_code(isa, alloc, text) {
        Ok(code) => adopt_code(isa, alloc, &code, drain),
        Err(fault) => Err(fault),
    }
}
