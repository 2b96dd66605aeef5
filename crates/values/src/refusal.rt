// Why a call is refused, and where.
ghost use Rattle.std.specs.Prelude.{◌≡◌};
ghost use Rattle.values.specs.Result.{refusal_of, unplaced};
ghost use Rattle.values.specs.Refusal.{number, placed, answer_in, said};

use super::Answer;

// A refusal, by document 01's number.
#[derive(Clone, Copy, Debug, PartialEq, Eq)]
pub enum Refusal {
    // Of the store sheet,
    StoreLength = 1,
    StoreLimits = 2,
    OrderTable = 3,
    Owner = 4,
    Value = 5,
    // of the programme sheet,
    ProgrammeLength = 6,
    ProgrammeLimits = 7,
    Region = 8,
    IllFormedCode = 9,
    NestedTooDeep = 10,
    // of the other arguments,
    Arguments = 11,
    OutputLength = 12,
    // of a step,
    WrongKind = 13,
    NoAuthority = 14,
    WriteViewNotAllowed = 15,
    ProvenanceTooLow = 16,
    BudgetSpent = 17,
    JournalFull = 18,
    // and of what is carried on from.
    Checkpoint = 19,
}

impl Refusal {
    // Its number.
    pub fn number(self) -> u32
        ensures { result ≡ number self }
    {
        self as u32
    }
}

// The number of a check's refusal, or 0.
#[tactic(auto, unfolding(crate::specs::Refusal::said, crate::specs::Result::refusal_of))]
pub fn number_of(checked: Result<(), Refusal>) -> u32
    ensures { result ≡ refusal_of (said checked) }
{
    match checked {
        Ok(()) => Answer::FINISHED,
        Err(refusal) => refusal.number(),
    }
}

// A refusal and its place: block, offset in the block's code, and the steps done.
#[derive(Clone, Copy, Debug, PartialEq, Eq)]
pub struct Refused {
    pub refusal: Refusal,
    pub block: usize,
    pub offset: usize,
    pub steps: u32,
}

// One without a place.
impl From<Refusal> for Refused {
    ghost from_gives = { λ e r. r ≡ placed e 0 0 0 };

    fn from(refusal: Refusal) -> Refused {
        Refused {
            refusal,
            block: 0,
            offset: 0,
            steps: 0,
        }
    }
}

// The same, as an answer.
impl From<Refusal> for Answer {
    ghost from_gives = { λ e a. a ≡ unplaced (number e) };

    #[tactic(auto, unfolding(crate::specs::Result::unplaced))]
    fn from(refusal: Refusal) -> Answer {
        Answer::from(Refused::from(refusal))
    }
}

impl From<Refused> for Answer {
    ghost from_gives = { λ e a. a ≡ answer_in e };

    fn from(refused: Refused) -> Answer {
        Answer {
            number: refused.refusal.number(),
            block: refused.block,
            offset: refused.offset,
            steps: refused.steps,
        }
    }
}
