//! What lands behind the cycle of its issue.

ghost use Rattle.std.specs.Prelude.{◌≡◌, codes};
ghost use Rattle.std.specs.List.{flat_map};
ghost use Rattle.c62_json.specs.Document.{Adds};
ghost use Rattle.c62_json_packets.specs.Member.{array_member};
ghost use Rattle.c62_json_show.specs.Landings.{landing, landings_by, landings};

use crate::words::landed_name;
use c62_grid::{Landing, landings_of};
use c62_json_packets::member::{begin_array, push_number, push_string};
use c62_packet::Placed;
use json::Writer;
use std::alloc::{AllocError, Global};

/// Writes what lands of the instruction of a line, and in which cycle.
#[tactic(auto, unfolding(crate::specs::Landings::landing))]
fn push_landing(
    alloc: Global,
    out: &mut Writer,
    line: u32,
    landed: &Landing,
) -> Result<(), AllocError>
    ensures { Adds result out.old out.new (landing line landed.now) }
{
    let name = landed_name(alloc, landed.what)?;
    out.begin_object()?;
    push_number(out, "cycle", u64::from(landed.cycle))?;
    push_string(out, "lands", name.as_str())?;
    push_number(out, "line", u64::from(line))?;
    out.end_object()
}

/// Writes landings of the instruction of a line, one behind the other.
fn push_all_of(
    alloc: Global,
    out: &mut Writer,
    line: u32,
    found: &[Landing],
) -> Result<(), AllocError>
    ensures { Adds result out.old out.new (flat_map (landing line) found.now) }
{
    for each in found {
        push_landing(alloc, out, line, each)?;
    }
    Ok(())
}

/// Writes the landings of an instruction.
fn push_landings_by(alloc: Global, out: &mut Writer, placed: &Placed) -> Result<(), AllocError>
    ensures { Adds result out.old out.new (landings_by placed.now) }
{
    let found = landings_of(alloc, &[*placed])?;
    push_all_of(alloc, out, placed.line, &found)
}

/// Writes the landings of instructions, one behind the other.
fn push_each(alloc: Global, out: &mut Writer, placed: &[Placed]) -> Result<(), AllocError>
    ensures { Adds result out.old out.new (landings placed.now) }
{
    for each in placed {
        push_landings_by(alloc, out, each)?;
    }
    Ok(())
}

/// Writes the member of the landings of a block's instructions, by issue.
#[tactic(auto, unfolding(c62_json_packets::specs::Member::array_member))]
pub(crate) fn push_landings(
    alloc: Global,
    out: &mut Writer,
    placed: &[Placed],
) -> Result<(), AllocError>
    ensures { Adds result out.old out.new (array_member (codes "landings") (landings placed.now)) }
{
    begin_array(out, "landings")?;
    push_each(alloc, out, placed)?;
    out.end_array()
}
