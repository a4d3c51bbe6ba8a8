//! How a run ended (docs/JSON.md, "The exit").

ghost use Rattle.std.specs.Prelude.{[], ◌∷◌, codes};
ghost use Rattle.json.specs.Token.{begin_object, key, string};
ghost use Rattle.c62_op.specs.Name.{register_name};
ghost use Rattle.c62_json.specs.Document.{Adds};
ghost use Rattle.c62_json_report.specs.Exit.{ended_by, exit, lines, stop};

use crate::brackets::{close_array, close_object, open_array, open_object};
use crate::words::register_name;
use c62_flight::Stop;
use c62_insn::Reg;
use c62_json::{push_count, push_name};
use c62_serial::End;
use json::Writer;
use std::alloc::{AllocError, Global};

/// Begins an object, which says what ended a run.
fn begin(out: &mut Writer, what: &str) -> Result<(), AllocError>
    ensures { Adds result out.old out.new (begin_object ∷ key (codes "by") ∷ string what.now ∷ []) }
{
    open_object(out)?;
    out.key("by")?;
    out.string(what)
}

/// What ended a run, of which no more is told.
fn push_alone(out: &mut Writer, what: &str) -> Result<(), AllocError>
    ensures { Adds result out.old out.new (ended_by what.now []) }
{
    begin(out, what)?;
    close_object(out)
}

/// How a chain of blocks ended.
#[tactic(auto, unfolding(crate::specs::Exit::exit))]
pub(crate) fn push_exit(out: &mut Writer, end: End) -> Result<(), AllocError>
    ensures { Adds result out.old out.new (exit end) }
{
    match end {
        End::End => push_alone(out, "end"),
        End::Limit => push_alone(out, "limit"),
        End::Register(value) => {
            begin(out, "register")?;
            push_name(out, "value")?;
            push_count(out, u64::from(value))?;
            close_object(out)
        }
    }
}

/// The lines of two instructions.
#[tactic(auto, unfolding(crate::specs::Exit::lines))]
fn push_lines(out: &mut Writer, first: u32, second: u32) -> Result<(), AllocError>
    ensures { Adds result out.old out.new (lines first second) }
{
    push_name(out, "lines")?;
    open_array(out)?;
    push_count(out, u64::from(first))?;
    push_count(out, u64::from(second))?;
    close_array(out)
}

/// The name of a register.
fn push_register(alloc: Global, out: &mut Writer, reg: Reg) -> Result<(), AllocError>
    ensures { Adds result out.old out.new (string (register_name reg) ∷ []) }
{
    out.string(register_name(alloc, reg)?.as_str())
}

/// The register whose writes clashed.
fn push_clashing(alloc: Global, out: &mut Writer, reg: Reg) -> Result<(), AllocError>
    ensures { Adds result out.old out.new (key (codes "register") ∷ string (register_name reg) ∷ []) }
{
    push_name(out, "register")?;
    push_register(alloc, out, reg)
}

/// Writes of a register that landed in one cycle.
fn push_clash(
    alloc: Global,
    out: &mut Writer,
    reg: Reg,
    first: u32,
    second: u32,
) -> Result<(), AllocError>
    ensures { Adds result out.old out.new (ended_by (codes "clash") (key (codes "register") ∷ string (register_name reg) ∷ lines first second)) }
{
    begin(out, "clash")?;
    push_clashing(alloc, out, reg)?;
    push_lines(out, first, second)?;
    close_object(out)?;
    Ok(())
}

/// Branches of one packet that both ran.
fn push_branches(out: &mut Writer, first: u32, second: u32) -> Result<(), AllocError>
    ensures { Adds result out.old out.new (ended_by (codes "branches") (lines first second)) }
{
    begin(out, "branches")?;
    push_lines(out, first, second)?;
    close_object(out)?;
    Ok(())
}

/// How a run in flight stopped.
#[tactic(auto, unfolding(crate::specs::Exit::stop))]
pub(crate) fn push_stop(alloc: Global, out: &mut Writer, stopped: Stop) -> Result<(), AllocError>
    ensures { Adds result out.old out.new (stop stopped) }
{
    match stopped {
        Stop::End => push_exit(out, End::End),
        Stop::Limit => push_exit(out, End::Limit),
        Stop::Register(value) => push_exit(out, End::Register(value)),
        Stop::Clash(reg, first, second) => push_clash(alloc, out, reg, first, second),
        Stop::Branches(first, second) => push_branches(out, first, second),
    }
}
