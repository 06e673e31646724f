// The polarities that an expression has and whether it is open, from those of its parts; refusals 6 and 7, which rest on them; and what is known where
// an expression stands: our key and the definitions before.
#![tactic(auto)]

ghost use Rattle.std.specs.Prelude.{◌+◌, ◌≤◌, ◌≡◌, ◌&&◌, ◌||◌, length, take};
ghost use Rattle.rows.specs.Polarities.{polarity_is};
ghost use Rattle.policy.specs.OwnKey.{declares};
ghost use Rattle.policy.specs.Leaf.{declaration};

use refusals::Refusal;
use rows::Polarity;
use std::ops::Not;

/// The most definitions that a policy has.
pub const MOST_DEFINITIONS: usize = 16;

/// The polarities that an expression has, whether it is open, and whether its draws are from closed sets only.
#[derive(Clone, Copy, Debug, PartialEq, Eq)]
pub struct Facts {
    pub plus: bool,
    pub minus: bool,
    pub open: bool,
    pub draws_closed: bool,
}

// What counts with the opposite polarity: what is taken away, and the set that a row is absent from.
impl Not for Facts {
    ghost use Rattle.check_polarity.specs.Facts.{turned_facts};

    type Output = Facts;

    ghost not_gives = { λ f g. g ≡ turned_facts f };

    fn not(self) -> Facts {
        Facts {
            plus: self.minus,
            minus: self.plus,
            ..self
        }
    }
}

impl Facts {
    ghost use Rattle.check_polarity.specs.Facts.{term_facts, union_of, difference_of, draw_of, absent_of, admit_of, declared_of, one_polarity};

    // Of rows of terms, in a literal or a head: no other operand counts, so terms take no polarity away.
    pub fn of_terms(complement: bool) -> Facts
        ensures { result ≡ term_facts complement }
    {
        Facts {
            plus: true,
            minus: true,
            open: complement,
            draws_closed: true,
        }
    }

    // Of what has one polarity alone, as a name or a definition.
    pub fn of_polarity(polarity: Polarity, open: bool) -> Facts
        ensures { result ≡ one_polarity polarity «open» }
    {
        Facts {
            plus: polarity == Polarity::Plus,
            minus: polarity == Polarity::Minus,
            open,
            draws_closed: true,
        }
    }

    #[tactic(auto, unfolding(crate::specs::Facts::union_of))]
    pub fn union(self, other: Facts) -> Facts
        ensures { result ≡ union_of self other }
    {
        Facts {
            plus: self.plus && other.plus,
            minus: self.minus && other.minus,
            open: self.open || other.open,
            draws_closed: self.draws_closed && other.draws_closed,
        }
    }

    #[tactic(auto, unfolding(crate::specs::Facts::union_of, crate::specs::Facts::difference_of))]
    pub fn difference(self, taken: Facts) -> Facts
        ensures { result ≡ difference_of self taken }
    {
        Facts {
            open: self.open,
            ..self.union(!taken)
        }
    }

    // Of a draw from it, before the other guards.
    #[tactic(auto, unfolding(crate::specs::Facts::union_of, crate::specs::Facts::draw_of))]
    pub fn drawn(self, rest: Facts) -> Facts
        ensures { result ≡ draw_of self rest }
    {
        let both = self.union(rest);
        Facts {
            open: false,
            draws_closed: !self.open && both.draws_closed,
            ..both
        }
    }

    // Of a guard that a row is absent from it, before the other guards.
    #[tactic(auto, unfolding(crate::specs::Facts::union_of, crate::specs::Facts::absent_of))]
    pub fn lacking(self, rest: Facts) -> Facts
        ensures { result ≡ absent_of self rest }
    {
        Facts {
            open: false,
            ..rest.union(!self)
        }
    }

    #[tactic(auto, unfolding(crate::specs::Facts::declared_of))]
    pub fn has(self, polarity: Polarity) -> bool
        ensures { result ≡ declared_of self (polarity_is polarity) }
    {
        match polarity {
            Polarity::Plus => self.plus,
            Polarity::Minus => self.minus,
        }
    }

    // 6 unless it has the polarity asked for, then 7 unless its draws are from closed sets.
    #[tactic(auto, unfolding(crate::specs::Facts::admit_of))]
    pub fn admit(self, had: bool) -> Result<Facts, Refusal>
        ensures { result ≡ admit_of self had }
    {
        if !had {
            return Err(Refusal::NoPolarity);
        }
        if !self.draws_closed {
            return Err(Refusal::OpenDraw);
        }
        Ok(self)
    }
}

/// What is known of a definition where another stands after it.
#[derive(Clone, Copy, Debug, PartialEq, Eq)]
pub struct Definition {
    pub name: u32,
    pub polarity: Polarity,
    pub open: bool,
}

impl Definition {
    ghost use Rattle.check_polarity.specs.Earlier.{known_is};

    #[tactic(auto, unfolding(policy::specs::OwnKey::declares, crate::specs::Earlier::known_is))]
    fn is_named(&self, name: u32, polarity: Polarity) -> bool
        ensures { result ≡ declares (declaration (known_is self.now)) name (polarity_is polarity) }
    {
        self.name == name && self.polarity == polarity
    }
}

impl Default for Definition {
    fn default() -> Definition {
        Definition {
            name: 0,
            polarity: Polarity::Plus,
            open: false,
        }
    }
}

/// Our key, and what is known of the definitions before: the first `count` of the list.
#[derive(Clone, Copy)]
pub struct Earlier {
    pub our_key: u32,
    pub count: u32,
    pub definitions: [Definition; MOST_DEFINITIONS],
    ghost few: { count ≤ 16 },
}

impl Earlier {
    ghost use Rattle.check_polarity.specs.Earlier.{none_before, and_then, known_is, earlier_is, number_in};

    // Before any definition.
    #[tactic(auto, unfolding(crate::specs::Earlier::earlier_is, crate::specs::Earlier::known_up_to))]
    pub fn none(our_key: u32) -> Earlier
        ensures count { result.count ≡ 0 }
        ensures none { earlier_is result ≡ none_before our_key }
    {
        Earlier {
            our_key,
            count: 0,
            definitions: [Definition::default(); MOST_DEFINITIONS],
        }
    }

    // Those that are known.
    pub fn known(&self) -> &[Definition]
        ensures definitions { result.now ≡ take self.now.count self.now.definitions }
        ensures count { length result.now ≡ self.now.count }
    {
        &self.definitions[..self.count as usize]
    }

    // One definition more.
    pub fn push(&mut self, definition: Definition)
        requires { self.old.count ≤ 15 }
        ensures count { self.new.count ≡ self.old.count + 1 }
        ensures known { earlier_is self.new ≡ and_then (earlier_is self.old) (known_is definition) }
    {
        self.definitions[self.count as usize] = definition;
        self.count += 1;
    }

    // The number of the definition of that name and polarity.
    pub fn position(&self, name: u32, polarity: Polarity) -> Option<usize>
        ensures { result ≡ number_in (earlier_is self.now) name (polarity_is polarity) }
    {
        self.known().iter().position(|d| d.is_named(name, polarity))
    }
}
