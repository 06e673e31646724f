// What the numbers in the words of a policy or a query stand for: its format, the codes of expressions and guards, the tags of terms and slots.
ghost use Rattle.std.specs.Prelude.{◌≤◌, ◌≡◌};
ghost use Rattle.policy.specs.Codes.{code_number, guard_number, tag_number, CodeRead, GuardRead, TagRead, FormatRead};
ghost use Rattle.policy.specs.Decode.{is_node};

use refusals::Refusal;

/// A policy's format, its first word: which rows a pattern matches.
#[derive(Clone, Copy, Debug, PartialEq, Eq)]
pub enum Format {
    EqualWidths = 1,
    WiderRows = 2,
}

impl TryFrom<u32> for Format {
    type Error = Refusal;

    ghost try_from_gives = { FormatRead };

    fn try_from(word: u32) -> Result<Format, Refusal> {
        match word {
            1 => Ok(Format::EqualWidths),
            2 => Ok(Format::WiderRows),
            _ => Err(Refusal::BadHeader),
        }
    }
}

/// The code that an expression begins with.
#[derive(Clone, Copy, Debug, PartialEq, Eq)]
pub enum Code {
    Finite = 1,
    Cofinite = 2,
    Definition = 3,
    Name = 4,
    Union = 5,
    Difference = 6,
    Comprehension = 7,
    Vetted = 8,
}

impl TryFrom<u32> for Code {
    type Error = Refusal;

    ghost try_from_gives = { CodeRead };

    fn try_from(word: u32) -> Result<Code, Refusal> {
        match word {
            1 => Ok(Code::Finite),
            2 => Ok(Code::Cofinite),
            3 => Ok(Code::Definition),
            4 => Ok(Code::Name),
            5 => Ok(Code::Union),
            6 => Ok(Code::Difference),
            7 => Ok(Code::Comprehension),
            8 => Ok(Code::Vetted),
            _ => Err(Refusal::BadWord),
        }
    }
}

impl Code {
    // The code that a checked word stands for.
    pub fn of(word: u32) -> Code
        requires { (1 ≤ word) × (word ≤ 8) }
        ensures { code_number result ≡ word }
    {
        match word {
            1 => Code::Finite,
            2 => Code::Cofinite,
            3 => Code::Definition,
            4 => Code::Name,
            5 => Code::Union,
            6 => Code::Difference,
            7 => Code::Comprehension,
            _ => Code::Vetted,
        }
    }

    // Does the expression hold others?
    pub fn is_node(self) -> bool
        ensures { result ≡ is_node (code_number self) }
    {
        matches!(self, Code::Union | Code::Difference | Code::Comprehension)
    }
}

impl From<Code> for u32 {
    ghost from_gives = { λ code n. n ≡ code_number code };

    fn from(code: Code) -> u32 {
        code as u32
    }
}

/// The code that a guard begins with.
#[derive(Clone, Copy, Debug, PartialEq, Eq)]
pub enum GuardCode {
    Draw = 1,
    Same = 2,
    Different = 3,
    Absent = 4,
}

impl TryFrom<u32> for GuardCode {
    type Error = Refusal;

    ghost try_from_gives = { GuardRead };

    fn try_from(word: u32) -> Result<GuardCode, Refusal> {
        match word {
            1 => Ok(GuardCode::Draw),
            2 => Ok(GuardCode::Same),
            3 => Ok(GuardCode::Different),
            4 => Ok(GuardCode::Absent),
            _ => Err(Refusal::BadWord),
        }
    }
}

impl GuardCode {
    // The code that a checked word stands for.
    pub fn of(word: u32) -> GuardCode
        requires { (1 ≤ word) × (word ≤ 4) }
        ensures { guard_number result ≡ word }
    {
        match word {
            1 => GuardCode::Draw,
            2 => GuardCode::Same,
            3 => GuardCode::Different,
            _ => GuardCode::Absent,
        }
    }
}

/// What a term or a slot begins with.
#[derive(Clone, Copy, Debug, PartialEq, Eq)]
pub enum Tag {
    Atom = 0,
    Variable = 1,
    New = 2,
}

impl TryFrom<u32> for Tag {
    type Error = Refusal;

    ghost try_from_gives = { TagRead };

    fn try_from(word: u32) -> Result<Tag, Refusal> {
        match word {
            0 => Ok(Tag::Atom),
            1 => Ok(Tag::Variable),
            2 => Ok(Tag::New),
            _ => Err(Refusal::BadWord),
        }
    }
}

/// What an answer's rows are to those that belong in every world: all of them, some of them, or they and others.
#[derive(Clone, Copy, Debug, PartialEq, Eq)]
pub enum Verdict {
    Exact = 0,
    Lower = 1,
    Upper = 2,
}

impl From<Verdict> for u32 {
    ghost use Rattle.policy.specs.Codes.{verdict_number};

    ghost from_gives = { λ v n. n ≡ verdict_number v };

    fn from(verdict: Verdict) -> u32 {
        verdict as u32
    }
}
