//! Words of a picture that stand in documents too.

ghost use Rattle.std.specs.Prelude.{◌≡◌, IfOk, OnOk, string_bytes};
ghost use Rattle.c62_listing.specs.Written.{AddsText};
ghost use Rattle.c62_reason.specs.Words.{reason_words};
ghost use Rattle.c62_grid.specs.Landing.{landed_name};
ghost use Rattle.c62_show.specs.Head.{shared_words};
ghost use Rattle.c62_show.specs.Whys.{resource_words};

use c62_grid::Landed;
use c62_grid::words::push_register;
use c62_reason::Reason;
use c62_rules::Resource;
use c62_show::words::{push_reason, push_resource, push_shared};
use std::alloc::{AllocError, Global};

/// Why an instruction must wait for another.
pub(crate) fn reason_words(alloc: Global, reason: Reason) -> Result<String, AllocError>
    ensures { IfOk result (λ words. string_bytes words ≡ reason_words reason) }
{
    let mut words = String::new(alloc);
    push_reason(&mut words, reason)?;
    Ok(words)
}

/// What two instructions share, for which the second waits.
pub(crate) fn shared_words(alloc: Global, reason: Reason) -> Result<String, AllocError>
    ensures { IfOk result (λ words. string_bytes words ≡ shared_words reason) }
{
    let mut words = String::new(alloc);
    push_shared(&mut words, reason)?;
    Ok(words)
}

/// What there is too little of: a unit, a path, or reads of a register.
pub(crate) fn resource_words(alloc: Global, resource: Resource) -> Result<String, AllocError>
    ensures { IfOk result (λ words. string_bytes words ≡ resource_words resource) }
{
    let mut words = String::new(alloc);
    push_resource(&mut words, resource)?;
    Ok(words)
}

/// Adds the name of what lands.
fn push_landed(out: &mut String, what: Landed) -> Result<(), AllocError>
    ensures { OnOk result (AddsText out.old (landed_name what) out.new) }
{
    match what {
        Landed::Register(reg) => push_register(out, reg),
        Landed::Branch => out.push_str("branch"),
    }
}

/// The name of what lands.
pub(crate) fn landed_name(alloc: Global, what: Landed) -> Result<String, AllocError>
    ensures { IfOk result (λ words. string_bytes words ≡ landed_name what) }
{
    let mut words = String::new(alloc);
    push_landed(&mut words, what)?;
    Ok(words)
}
