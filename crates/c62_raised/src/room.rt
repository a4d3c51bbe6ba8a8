//! What takes an instruction or some in a cycle.

ghost use Rattle.std.specs.Prelude.{◌≡◌, ◌↔◌, ◌<◌, length, IsTrue};
ghost use Rattle.c62_depend.specs.Plan.{insns_of};
ghost use Rattle.c62_raised.specs.Order.{AreWaits, AreAllWaits};
ghost use Rattle.c62_raised.specs.Room.{CrossTo, CrossesTo, WaitsIn};

use c62_bound::{Kind, waits_for};
use c62_depend::Plan;
use c62_insn::{Operands, Side};
use c62_read::MOST_INSTRUCTIONS;

/// What takes an instruction or some in a cycle, on a side.
#[derive(Clone, Copy, PartialEq, Eq, Debug)]
pub enum Room {
    /// What needs know: units, or the data path.
    Of(Kind, Side),
    /// The cross path to the units of this side.
    Cross(Side),
}

/// All rooms, in their order.
pub const ROOMS: [Room; 16] = [
    Room::Of(Kind::L, Side::A),
    Room::Of(Kind::S, Side::A),
    Room::Of(Kind::M, Side::A),
    Room::Of(Kind::D, Side::A),
    Room::Of(Kind::Ls, Side::A),
    Room::Of(Kind::Lsd, Side::A),
    Room::Of(Kind::Path, Side::A),
    Room::Cross(Side::A),
    Room::Of(Kind::L, Side::B),
    Room::Of(Kind::S, Side::B),
    Room::Of(Kind::M, Side::B),
    Room::Of(Kind::D, Side::B),
    Room::Of(Kind::Ls, Side::B),
    Room::Of(Kind::Lsd, Side::B),
    Room::Of(Kind::Path, Side::B),
    Room::Cross(Side::B),
];

impl Room {
    ghost use Rattle.c62_raised.specs.Room.{width_of};

    /// How many instructions find room in a cycle.
    pub fn width(self) -> u16
        ensures { result ≡ width_of self }
    {
        match self {
            Room::Of(kind, _) => kind.width(),
            Room::Cross(_) => 1,
        }
    }
}

/// Whether a source comes over the cross path to the units of this side, where the destination lies.
fn cross_to(operands: Operands, side: Side) -> bool
    ensures { IsTrue result ↔ CrossTo side operands }
{
    match operands.side() {
        Some(own) => own == side && operands.crosses_to(side),
        None => false,
    }
}

/// Whether a source of instruction `j` does.
fn crosses_to(plan: &Plan, side: Side, j: u16) -> bool
    requires { j < length plan.now.insns }
    ensures { IsTrue result ↔ CrossesTo (insns_of plan.now) side j }
{
    cross_to(plan.insn(j).operands(), side)
}

/// Whether instruction `j` finds room nowhere else.
pub(crate) fn waits_in(plan: &Plan, room: Room, j: u16) -> bool
    requires { j < length plan.now.insns }
    ensures { IsTrue result ↔ WaitsIn (insns_of plan.now) room j }
{
    match room {
        Room::Of(kind, side) => waits_for(plan, kind, side, j),
        Room::Cross(side) => crosses_to(plan, side, j),
    }
}

/// Of each instruction whether it finds room nowhere else.
pub(crate) type Waits = [bool; MOST_INSTRUCTIONS];

/// Of each instruction of a block whether it finds room nowhere else but in this one.
fn waits_of(plan: &Plan, room: Room) -> Waits
    ensures { AreWaits (insns_of plan.now) room (length (insns_of plan.now)) result }
{
    let mut waits = [false; MOST_INSTRUCTIONS];
    for j in 0..plan.len() {
        waits[usize::from(j)] = waits_in(plan, room, j);
    }
    waits
}

/// Of each room, in their order, which instructions wait for it.
pub(crate) type AllWaits = [Waits; 16];

/// Of each room, in their order, which instructions of a block wait for it.
pub(crate) fn all_waits(plan: &Plan) -> AllWaits
    ensures { AreAllWaits (insns_of plan.now) 16 result }
{
    let mut all = [[false; MOST_INSTRUCTIONS]; 16];
    for k in 0..16 {
        all[k] = waits_of(plan, ROOMS[k]);
    }
    all
}
