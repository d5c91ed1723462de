// The answer of a search in numbers, as C and the previewer's line tell it.
#![tactic(auto)]

ghost use Rattle.std.specs.Prelude.{◌≡◌};
ghost use Rattle.answers.specs.Clauses.{all_told, RefusedBy, Tells, answer_of};

use meeting::{Direct, Found, Random, Sorted};
use poses::refusals::Refusal;

/// What a search gives back beside what it writes, in numbers: 0 or the number of a refusal with its list and
/// position, the rows or rounds, and the accesses by kind. All numbers of a refusal but its own three are 0.
#[derive(Clone, Copy, Debug, PartialEq, Eq)]
pub struct Answer {
    pub number: u32,
    pub list: u32,
    pub position: u32,
    pub rows: u32,
    pub sorted: Sorted,
    pub direct: Direct,
    pub random: Random,
}

impl Answer {
    /// All accesses, of whatever kind; none of a refusal.
    pub fn total(self) -> u64
        ensures { result ≡ all_told self }
    {
        u64::from(self.sorted.0) + u64::from(self.direct.0) + u64::from(self.random.0)
    }
}

/// The answer of a refusal by any number, at any list and position: all numbers but these three are 0.
pub fn refused(number: u32, list: u32, position: u32) -> Answer
    ensures { RefusedBy number list position result }
{
    Answer {
        number,
        list,
        position,
        rows: 0,
        sorted: Sorted(0),
        direct: Direct(0),
        random: Random(0),
    }
}

/// The answer of a search that is not refused: what it has done.
pub fn found(done: Found) -> Answer
    ensures { Tells done result }
{
    Answer {
        number: 0,
        list: 0,
        position: 0,
        rows: done.rows,
        sorted: done.sorted,
        direct: done.direct,
        random: done.random,
    }
}

impl From<Result<Found, Refusal>> for Answer {
    ghost from_gives = { λ found answer. answer ≡ answer_of found };

    fn from(outcome: Result<Found, Refusal>) -> Answer {
        match outcome {
            Ok(done) => found(done),
            Err(refusal) => refused(refusal.number(), refusal.list(), refusal.position()),
        }
    }
}
