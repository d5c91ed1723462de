ghost use Rattle.std.specs.Prelude.{◌≡◌, ◌∷◌, ◌++◌, Some};
ghost use Rattle.std.specs.Fmt.{decimal};
ghost use Rattle.poses.specs.Refusals.{told_of};

use std::error::Error;
use std::fmt;

/// Where in the lists a refusal was met: list and position, both from 1.
#[derive(Clone, Copy, Debug, PartialEq, Eq)]
pub struct Spot {
    pub list: u32,
    pub position: u32,
}

/// Why a call is refused.
#[derive(Clone, Copy, Debug, PartialEq, Eq)]
pub enum Refusal {
    /// The lists are not 1 to 8, or the poses not 1 to 1,024.
    WrongSize,
    /// No place of the shortlist is asked for, or more than there are poses.
    WrongCount,
    /// The rule is above 2.
    WrongRule,
    /// The weights are not two bytes for each list, or one is above 1,000.
    WrongWeights,
    /// A slice of the lists has under `lists` x `poses` entries.
    ShortLists,
    /// A slice to be written is too short: under `count` places for the shortlist, or under `lists` x `poses` for
    /// the others.
    ShortRoom,
    /// An item is no pose of the set.
    UnknownItem(Spot),
    /// An item stood earlier in the list.
    ItemTwice(Spot),
    /// A score is above the one before it in the list.
    ScoreRises(Spot),
    /// A record has too few bytes for its fixed head.
    ShortRecord,
    /// A record's length runs past its input, or, where it is to end it, is not that of the bytes after it.
    WrongLength,
    /// A record's version is not 1.
    WrongVersion,
    /// A record's length does not fit its own counts.
    WrongCounts,
}

impl Refusal {
    /// The number by which the specification, C and the previewer's line tell it.
    pub fn number(self) -> u32
        ensures { result ≡ (told_of self).number }
    {
        match self {
            Refusal::WrongSize => 1,
            Refusal::WrongCount => 2,
            Refusal::WrongRule => 3,
            Refusal::WrongWeights => 4,
            Refusal::ShortLists => 5,
            Refusal::ShortRoom => 6,
            Refusal::UnknownItem(_) => 7,
            Refusal::ItemTwice(_) => 8,
            Refusal::ScoreRises(_) => 9,
            Refusal::ShortRecord => 10,
            Refusal::WrongLength => 11,
            Refusal::WrongVersion => 12,
            Refusal::WrongCounts => 13,
        }
    }

    /// Where in the lists it was met, for those that are met at a position.
    fn spot(self) -> Spot
        ensures list { result.list ≡ (told_of self).list }
        ensures position { result.position ≡ (told_of self).position }
    {
        match self {
            Refusal::UnknownItem(spot) | Refusal::ItemTwice(spot) | Refusal::ScoreRises(spot) =>
                spot,
            _ => Spot {
                list: 0,
                position: 0,
            },
        }
    }

    /// The list where it was met, from 1, and 0 where it is met at no position.
    pub fn list(self) -> u32
        ensures { result ≡ (told_of self).list }
    {
        self.spot().list
    }

    /// The position where it was met, from 1, and 0 where it is met at no position.
    pub fn position(self) -> u32
        ensures { result ≡ (told_of self).position }
    {
        self.spot().position
    }
}

/// Number, list and position, one space apart, as the previewer's line tells them.
impl fmt::Display for Refusal {
    ghost output = { λ e. Some (decimal (told_of e).number ++ 32 ∷ decimal (told_of e).list ++ 32 ∷ decimal (told_of e).position) };

    fn fmt<W: fmt::Write>(&self, f: &mut fmt::Formatter<W>) -> fmt::Result {
        let number = self.number();
        let list = self.list();
        let position = self.position();
        write!(f, "{number} {list} {position}")
    }
}

impl Error for Refusal {}
