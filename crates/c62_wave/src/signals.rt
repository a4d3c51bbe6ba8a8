//! The signals of a dump, and what each event does to them.

ghost use Rattle.std.specs.Prelude.{◌≡◌, ◌+◌, ◌*◌, ◌%◌, ◌^◌, ◌<◌, IsTrue, map};
ghost use Rattle.c62_serial.specs.Memory.{is_size};
ghost use Rattle.c62_wave.specs.declared.value.Value.TheVariants.{Word};
ghost use Rattle.c62_wave.specs.Signals.{one_more, a_cycle_on, in_four, in_five, writes_in_flight, opening_signals, put_on, started, stored, landed, next_cycle};

use crate::value::Value;
use c62_insn::Unit;
use c62_pipe::Due;

/// How many instructions of a kind were issued in a cycle, and in each of the four before it. Those of one cycle are counted modulo
/// 256, though a packet has eight at most.
#[derive(Clone, Copy, PartialEq, Eq, Debug)]
pub struct Recent {
    pub now: u8,
    pub one_ago: u8,
    pub two_ago: u8,
    pub three_ago: u8,
    pub four_ago: u8,
}

/// None was issued.
const NONE: Recent = Recent {
    now: 0,
    one_ago: 0,
    two_ago: 0,
    three_ago: 0,
    four_ago: 0,
};

/// What is shown of a run in a cycle.
#[derive(Clone, Copy, Debug)]
pub struct Signals {
    /// The line of the first instruction that is issued.
    pub line: Value,
    /// How many packets were issued so far, modulo 2^32.
    pub packets: u32,
    /// The line of the instruction on each unit, in the order of [`Unit::ALL`].
    pub units: [Value; 8],
    /// Multiplies that were issued in the cycle.
    pub multiplies: u8,
    pub loads: Recent,
    pub branches: Recent,
    /// The words of A0 to A15 and B0 to B15.
    pub registers: [Value; 32],
    /// The address and the value of the last store.
    pub store_address: Value,
    pub store_data: Value,
}

impl Recent {
    fn add_one(&mut self)
        ensures { self.new ≡ one_more self.old }
    {
        self.now = self.now.wrapping_add(1);
    }

    fn go_on(&mut self)
        ensures { self.new ≡ a_cycle_on self.old }
    {
        *self = Recent {
            now: 0,
            one_ago: self.now,
            two_ago: self.one_ago,
            three_ago: self.two_ago,
            four_ago: self.three_ago,
        };
    }

    /// How many were issued in the last four cycles.
    pub(crate) fn in_four(self) -> u32
        ensures count { result ≡ in_four self }
        ensures within { result < 1024 }
    {
        u32::from(self.now)
            + u32::from(self.one_ago)
            + u32::from(self.two_ago)
            + u32::from(self.three_ago)
    }

    /// How many were issued in the last five cycles.
    pub(crate) fn in_five(self) -> u32
        ensures { result ≡ in_five self }
    {
        self.in_four() + u32::from(self.four_ago)
    }
}

/// These words, each as a value.
fn values_of(words: &[u32; 32]) -> [Value; 32]
    ensures { result ≡ map Word words.now }
{
    let mut values = [Value::Unknown; 32];
    for (index, word) in words.iter().enumerate() {
        values[index] = Value::Word(*word);
    }
    values
}

/// So many low bytes of a value, as a number.
fn low_bytes(size: u8, value: u32) -> u32
    requires { IsTrue (is_size size) }
    ensures { result ≡ value % 2 ^ (8 * size) }
{
    match size {
        1 => value % 0x100,
        2 => value % 0x1_0000,
        _ => value,
    }
}

impl Signals {
    /// Before a run, whose registers have these words.
    pub(crate) fn opening(words: &[u32; 32]) -> Signals
        ensures { result ≡ opening_signals words.now }
    {
        Signals {
            line: Value::Idle,
            packets: 0,
            units: [Value::Idle; 8],
            multiplies: 0,
            loads: NONE,
            branches: NONE,
            registers: values_of(words),
            store_address: Value::Unknown,
            store_data: Value::Unknown,
        }
    }

    /// How many register writes are in flight: of multiplies and loads.
    pub(crate) fn writes(&self) -> u32
        ensures { result ≡ writes_in_flight self.now }
    {
        u32::from(self.multiplies) + self.loads.in_four()
    }

    /// An instruction of this line is issued on a unit.
    #[tactic(auto, unfolding(crate::specs::Signals::put_on))]
    pub(crate) fn put_on(&mut self, line: u32, unit: Unit)
        ensures { self.new ≡ put_on line unit self.old }
    {
        if let Value::Idle = self.line {
            self.line = Value::Word(line);
            self.packets = self.packets.wrapping_add(1);
        }
        self.units[usize::from(unit.index())] = Value::Word(line);
    }

    /// An instruction with this delay runs.
    #[tactic(auto, unfolding(crate::specs::Signals::started))]
    pub(crate) fn start(&mut self, delay: u8)
        ensures { self.new ≡ started delay self.old }
    {
        if delay == 1 {
            self.multiplies = self.multiplies.wrapping_add(1);
        } else if delay == 4 {
            self.loads.add_one();
        } else if delay == 5 {
            self.branches.add_one();
        }
    }

    /// So many low bytes of a value are stored at an address.
    #[tactic(auto, unfolding(crate::specs::Signals::stored))]
    pub(crate) fn store(&mut self, address: u32, size: u8, value: u32)
        requires { IsTrue (is_size size) }
        ensures { self.new ≡ stored address size value self.old }
    {
        self.store_address = Value::Word(address);
        self.store_data = Value::Word(low_bytes(size, value));
    }

    /// A write lands.
    #[tactic(auto, unfolding(crate::specs::Signals::landed))]
    pub(crate) fn land(&mut self, write: &Due)
        ensures { self.new ≡ landed write.now self.old }
    {
        self.registers[usize::from(write.reg.index())] = Value::Word(write.word);
    }

    /// The next cycle begins.
    #[tactic(auto, unfolding(crate::specs::Signals::next_cycle))]
    pub(crate) fn go_on(&mut self)
        ensures { self.new ≡ next_cycle self.old }
    {
        self.line = Value::Idle;
        self.units = [Value::Idle; 8];
        self.multiplies = 0;
        self.loads.go_on();
        self.branches.go_on();
    }
}
