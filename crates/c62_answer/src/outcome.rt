//! What is written, and how a run ends that is done.

ghost use Rattle.std.specs.Prelude.{◌≡◌};
ghost use Rattle.c62_answer.specs.Run.{breach_of, status_done, outcome_adopted, outcome_of, outcome_run};

/// What a strict run doesn't take.
#[derive(Clone, Copy, PartialEq, Eq, Debug)]
pub enum Breach {
    /// An access faulted.
    Fault,
    /// The run ended by its limit, and no access faulted.
    Limit,
}

use c62_adopt_late::Late;

/// What was added to drain a text.
#[derive(Clone, Copy, PartialEq, Eq, Debug)]
pub struct Added {
    pub cycles: u64,
    /// The first register that the text reads below a block before what lands in it there, so that draining it may change what it does.
    pub late: Option<Late>,
}

/// How a run ends that is done.
#[derive(Debug, Drop)]
pub enum Outcome {
    /// The answer is written; where that is what a check tells, all is the same.
    Done,
    /// The listing of a text that was drained is written: this was added.
    Drained(Added),
    /// What a check tells is written, and some block or loop isn't the same.
    NotSame,
    /// The report of a strict run is written, and it has this.
    Breached(Breach),
    /// What is asked of packets with pipelined loops is written: this is to be told of the loops, and a strict run has this.
    Looped(Vec<u8>, Option<Breach>),
}

/// What is to be written, and how the run ends then.
#[derive(Debug, Drop)]
pub struct Reply {
    pub text: Vec<u8>,
    pub outcome: Outcome,
}

impl Outcome {
    /// How an adoption ends, where this was added.
    pub fn of_adoption(drain: bool, added: Added) -> Outcome
        ensures { result ≡ outcome_adopted drain added }
    {
        if drain {
            Outcome::Drained(added)
        } else {
            Outcome::Done
        }
    }

    /// How a check ends where all is the same, or not.
    pub fn of_check(same: bool) -> Outcome
        ensures { result ≡ outcome_of same }
    {
        if same {
            Outcome::Done
        } else {
            Outcome::NotSame
        }
    }

    /// How a run ends that is strict or not, ended by its limit or not, and in which these lines faulted.
    pub fn of_run(strict: bool, limited: bool, faults: &[u32]) -> Outcome
        ensures { result ≡ outcome_run strict limited faults.now }
    {
        match (strict, faults) {
            (false, _) => Outcome::Done,
            (true, [_, ..]) => Outcome::Breached(Breach::Fault),
            (true, []) => {
                if limited {
                    Outcome::Breached(Breach::Limit)
                } else {
                    Outcome::Done
                }
            }
        }
    }

    /// What a strict run has that it doesn't take.
    pub fn breach(&self) -> Option<Breach>
        ensures { result ≡ breach_of self.now }
    {
        match self {
            Outcome::Breached(breach) => Some(*breach),
            Outcome::Looped(_, breach) => *breach,
            Outcome::Done | Outcome::Drained(_) | Outcome::NotSame => None,
        }
    }

    /// The status that the program ends with.
    pub fn status(&self) -> u8
        ensures { result ≡ status_done self.now }
    {
        match self {
            Outcome::Done | Outcome::Drained(_) | Outcome::Looped(_, None) => 0,
            Outcome::NotSame => 5,
            Outcome::Breached(Breach::Limit) | Outcome::Looped(_, Some(Breach::Limit)) => 6,
            Outcome::Breached(Breach::Fault) | Outcome::Looped(_, Some(Breach::Fault)) => 7,
        }
    }
}
