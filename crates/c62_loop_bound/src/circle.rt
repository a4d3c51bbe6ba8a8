//! How many cycles a circle of dependences asks for.

ghost use Rattle.std.specs.Prelude.{◌≡◌, ◌<◌, ◌∷◌, ℕ, pos, List, Bool, All, IfSome};
ghost use Rattle.std.specs.Int.{div_ceil};
ghost use Rattle.c62_insn.specs.declared.insn.Insn.{Insn};
ghost use Rattle.c62_loop_bound.specs.declared.dependence.Dependence.{Dependence as ADependence};
ghost use Rattle.c62_loop_bound.specs.Cause.{IsThatCircle};
ghost use Rattle.c62_loop_bound.specs.Circle.{iterations, IsDependence};
ghost use Rattle.c62_loop_bound.specs.Least.{IsByCircle};
ghost use Rattle.c62_loop_bound.specs.Steps.{IsSum};

use crate::dependence::Dependence;

/// Where a way of dependences comes from, and its sums.
#[derive(Clone, Copy)]
struct Sums {
    from: u16,
    cycles: i64,
    iterations: u64,
}

/// The sums with one dependence more, if they aren't too great.
fn with(one: &Dependence, rest: Sums) -> Option<Sums>
    ensures { (way : List ADependence) → IsSum way one.now.from rest → IfSome result (IsSum (one.now ∷ way) one.now.to) }
{
    Some(Sums {
        from: rest.from,
        cycles: rest.cycles.checked_add(i64::from(one.latency))?,
        iterations: rest.iterations.checked_add(u64::from(one.apart))?,
    })
}

/// The sums of dependences that lead to a number, the last one first, if each begins where the next one ends.
fn sums_of(way: &[Dependence], to: u16) -> Option<Sums>
    ensures { IfSome result (IsSum way.now to) }
{
    match way {
        [] => Some(Sums {
            from: to,
            cycles: 0,
            iterations: 0,
        }),
        [one, rest @ ..] => {
            if one.to != to {
                return None;
            }
            let sums = sums_of(rest, one.from)?;
            with(one, sums)
        }
    }
}

/// The least number of cycles of which so many iterations hold a sum, if that is small.
fn share_of(sums: Sums) -> Option<u16>
    ensures { IfSome result (λ cycles. (0 < sums.iterations) × ((sum : ℕ) × (sums.cycles ≡ pos sum) × (cycles ≡ div_ceil sum sums.iterations))) }
{
    if sums.iterations == 0 {
        return None;
    }
    let sum = u64::try_from(sums.cycles).ok()?;
    u16::try_from(sum.div_ceil(sums.iterations)).ok()
}

/// How many cycles dependences ask of each pass, if they are a circle.
fn cycles_of(circle: &[Dependence]) -> Option<u16>
    ensures by { (promised : Insn → Insn → Bool) (body : List Insn) → All (IsDependence promised body) circle.now
        → IfSome result (IsByCircle promised body) }
    ensures that { (promised : Insn → Insn → Bool) (body : List Insn) → All (IsDependence promised body) circle.now
        → IfSome result (λ cycles. IsThatCircle promised body cycles circle.now) }
{
    let last = circle.first()?;
    let sums = sums_of(circle, last.to)?;
    if sums.from != last.to {
        return None;
    }
    share_of(sums)
}

/// Over how many iterations dependences go, if they are a circle.
fn iterations_of(circle: &[Dependence]) -> Option<u64>
    ensures { IfSome result (λ count. count ≡ iterations circle.now) }
{
    let last = circle.first()?;
    let sums = sums_of(circle, last.to)?;
    Some(sums.iterations)
}

/// Over how many iterations dependences go, if they are a circle that asks for so many cycles.
pub(crate) fn iterations_asking(circle: &[Dependence], cycles: u16) -> Option<u64>
    ensures { (promised : Insn → Insn → Bool) (body : List Insn) → All (IsDependence promised body) circle.now
        → IfSome result (λ over. IsThatCircle promised body cycles circle.now × (over ≡ iterations circle.now)) }
{
    if cycles_of(circle)? == cycles {
        iterations_of(circle)
    } else {
        None
    }
}

/// More cycles than these, if dependences are a circle that asks for them.
pub(crate) fn more_than(least: u16, circle: &[Dependence]) -> Option<u16>
    ensures { (promised : Insn → Insn → Bool) (body : List Insn) → All (IsDependence promised body) circle.now
        → IfSome result (λ more. (least < more) × IsByCircle promised body more) }
{
    let cycles = cycles_of(circle)?;
    if least < cycles { Some(cycles) } else { None }
}
