// Rows, their order, and sets of rows: the definitions are in `specs/` and what is shown of them in `proofs/`. Here is what the code tests against.
#![tactic(auto)]

ghost use Rattle.std.specs.Prelude.{◌≡◌};
ghost use Rattle.rows.specs.Polarities.{polarity_number, turned, form_number, form_of};

use std::ops::Not;

/// The first atom that is a key; those below are numbers.
pub const FIRST_KEY: u32 = 2147483648;

/// The last number of a name.
pub const LAST_NAME: u32 = 65535;

/// The most rows that a set lists; so a set takes 642 words.
pub const MOST_ROWS: usize = 128;

pub const SET_ROOM: usize = 2 + 5 * MOST_ROWS;

/// Whether a name's list says which rows it has, or which it has not.
#[derive(Clone, Copy, Debug, PartialEq, Eq)]
pub enum Polarity {
    Plus = 0,
    Minus = 1,
}

impl From<Polarity> for u32 {
    ghost from_gives = { λ p n. n ≡ polarity_number p };

    fn from(polarity: Polarity) -> u32 {
        polarity as u32
    }
}

impl Not for Polarity {
    type Output = Polarity;

    ghost not_gives = { λ p q. q ≡ turned p };

    fn not(self) -> Polarity {
        match self {
            Polarity::Plus => Polarity::Minus,
            Polarity::Minus => Polarity::Plus,
        }
    }
}

/// Whether a set's list says which rows it has, or which it has not.
#[derive(Clone, Copy, Debug, PartialEq, Eq)]
pub enum Form {
    Finite = 0,
    Complement = 1,
}

impl From<Form> for u32 {
    ghost from_gives = { λ f n. n ≡ form_number f };

    fn from(form: Form) -> u32 {
        form as u32
    }
}

/// The set that a name's list of this polarity says: the rows listed, or all but those.
impl From<Polarity> for Form {
    ghost from_gives = { λ p f. f ≡ form_of p };

    fn from(polarity: Polarity) -> Form {
        match polarity {
            Polarity::Plus => Form::Finite,
            Polarity::Minus => Form::Complement,
        }
    }
}
