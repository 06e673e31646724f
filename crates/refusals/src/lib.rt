// What a call is refused for, and which part of a policy or a query it is about. The numbers are those of `specs/RefusalTable.antt`.
#![tactic(auto)]

ghost use Rattle.std.specs.Prelude.{◌≡◌};

/// Why a call is refused. `specs/RefusalTable.antt` says when each comes.
#[derive(Clone, Copy, Debug, PartialEq, Eq)]
pub enum Refusal {
    BadHeader = 1,
    BadTable = 2,
    BadWord = 3,
    NotInScope = 4,
    TooDeep = 5,
    NoPolarity = 6,
    OpenDraw = 7,
    BadStore = 8,
    BadCertificate = 9,
    StoreFull = 10,
    ShortArea = 11,
    ComplementDrawn = 12,
    TooManyRows = 13,
    TooManyDraws = 14,
    NotExternal = 15,
    BadDate = 16,
    BadTerm = 17,
    BadLink = 18,
    LinksFull = 19,
    NotAKey = 20,
}

impl From<Refusal> for u32 {
    ghost use Rattle.refusals.specs.Numbers.{number};

    ghost from_gives = { λ r n. n ≡ number r };

    fn from(refusal: Refusal) -> u32 {
        refusal as u32
    }
}

/// What a refusal is about: a definition of the policy, the query, or neither of the two.
#[derive(Clone, Copy, Debug, PartialEq, Eq)]
pub enum Part {
    Definition(u32),
    Query,
    Neither,
}

impl From<Part> for u32 {
    ghost use Rattle.refusals.specs.Numbers.{part_number};

    ghost from_gives = { λ p n. n ≡ part_number p };

    fn from(part: Part) -> u32 {
        match part {
            Part::Definition(d) => d,
            Part::Query => QUERY_PART,
            Part::Neither => NO_PART,
        }
    }
}

/// A refusal of a call that reads a policy or a query, with the part that it is about.
#[derive(Clone, Copy, Debug, PartialEq, Eq)]
pub struct Refused {
    pub refusal: Refusal,
    pub part: Part,
}

/// What is refused before any part is looked at is about neither.
impl From<Refusal> for Refused {
    ghost use Rattle.refusals.specs.Numbers.{of_neither};

    ghost from_gives = { λ r x. x ≡ of_neither r };

    fn from(refusal: Refusal) -> Refused {
        Refused {
            refusal,
            part: Part::Neither,
        }
    }
}

/// The parts that are no definition, as a caller in C is told them.
pub const QUERY_PART: u32 = 16;

pub const NO_PART: u32 = 17;
