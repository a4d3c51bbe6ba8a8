//! The words of a picture, which stand in documents too (docs/SHOW.md).

ghost use Rattle.std.specs.Prelude.{◌≡◌, ◌++◌, OnOk};
ghost use Rattle.c62_op.specs.Name.{register_name};
ghost use Rattle.c62_listing.specs.Written.{AddsText};
ghost use Rattle.c62_reason.specs.Words.{reason_words};
ghost use Rattle.c62_show.specs.Head.{is_told, room_name, shared_words};
ghost use Rattle.c62_show.specs.Whys.{resource_words};

use c62_bound::{Kind, Need};
use c62_grid::path_name;
use c62_grid::words::{push_register, unit_name};
use c62_insn::{Reg, Side};
use c62_reason::Reason;
use c62_rules::Resource;
use std::alloc::AllocError;

/// A word, and the name of a register behind it.
fn push_about(out: &mut String, word: &str, reg: Reg) -> Result<(), AllocError>
    ensures { OnOk result (AddsText out.old (word.now ++ register_name reg) out.new) }
{
    out.push_str(word)?;
    push_register(out, reg)
}

/// Adds why an instruction must wait for another.
///
/// # Errors
///
/// `AllocError` where memory ran out.
#[tactic(auto, unfolding(c62_reason::specs::Words::reason_words))]
pub fn push_reason(out: &mut String, reason: Reason) -> Result<(), AllocError>
    ensures { OnOk result (AddsText out.old (reason_words reason) out.new) }
{
    match reason {
        Reason::Reads(reg) => push_about(out, "reads ", reg),
        Reason::Overwrites(reg) => push_about(out, "overwrites ", reg),
        Reason::Writes(reg) => push_about(out, "writes ", reg),
        Reason::AccessesMemory => out.push_str("accesses memory"),
        Reason::StoresMemory => out.push_str("stores memory"),
        Reason::Branches => out.push_str("branches -"),
    }
}

/// Adds what two instructions share, for which the second waits: a register, memory or a branch.
///
/// # Errors
///
/// `AllocError` where memory ran out.
pub fn push_shared(out: &mut String, reason: Reason) -> Result<(), AllocError>
    ensures { OnOk result (AddsText out.old (shared_words reason) out.new) }
{
    match reason {
        Reason::Reads(reg) => push_register(out, reg),
        Reason::Overwrites(reg) => push_register(out, reg),
        Reason::Writes(reg) => push_register(out, reg),
        Reason::AccessesMemory | Reason::StoresMemory => out.push_str("mem"),
        Reason::Branches => out.push_str("branch"),
    }
}

/// Adds what there is too little of: a unit, a path, or reads of a register.
///
/// # Errors
///
/// `AllocError` where memory ran out.
pub fn push_resource(out: &mut String, resource: Resource) -> Result<(), AllocError>
    ensures { OnOk result (AddsText out.old (resource_words resource) out.new) }
{
    match resource {
        Resource::OnUnit(unit) => out.push_str(unit_name(unit)),
        Resource::CrossPath(_) | Resource::DataPath(_) => out.push_str(path_name(resource)),
        Resource::ReadsOf(reg) => push_about(out, "reads of ", reg),
    }
}

/// What instructions wait for: units of a side, or its data path.
pub fn room_name(kind: Kind, side: Side) -> &'static str
    ensures { result.now ≡ room_name kind side }
{
    match (kind, side) {
        (Kind::L, Side::A) => ".L1",
        (Kind::L, Side::B) => ".L2",
        (Kind::S, Side::A) => ".S1",
        (Kind::S, Side::B) => ".S2",
        (Kind::M, Side::A) => ".M1",
        (Kind::M, Side::B) => ".M2",
        (Kind::D, Side::A) => ".D1",
        (Kind::D, Side::B) => ".D2",
        (Kind::Ls, Side::A) => ".L1 .S1",
        (Kind::Ls, Side::B) => ".L2 .S2",
        (Kind::Lsd, Side::A) => ".L1 .S1 .D1",
        (Kind::Lsd, Side::B) => ".L2 .S2 .D2",
        (Kind::Path, Side::A) => "T1",
        (Kind::Path, Side::B) => "T2",
    }
}

/// Whether a need has more instructions than find room in one cycle.
pub fn is_told(need: Need) -> bool
    ensures { result ≡ is_told need }
{
    need.kind.width() < need.count
}
