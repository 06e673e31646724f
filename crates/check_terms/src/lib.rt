// Terms, slots and the guards that compare terms, decoded word by word.
#![tactic(auto)]

ghost use Rattle.std.specs.Prelude.{◌≡◌, ◌<◌, ◌≤◌, IfOk, leb, ltb};
ghost use Rattle.refusals.specs.RefusalTable.{bad_word, not_in_scope};
ghost use Rattle.policy.specs.Decode.{word, word_where, term_as, term, issuer, width, row, rows};
ghost use Rattle.policy.specs.Held.{term_is, slot_is, guard_is};
ghost use Rattle.check_terms.specs.Answers.{answered, same, keeping, nothing, next, tag_is, slot, scope, pattern, opening};

use policy::codes::{GuardCode, Tag};
use policy::{Guard, Slot, Term};
use refusals::Refusal;
use rows::{FIRST_KEY, MOST_ROWS};

const MOST_ATOMS: u32 = 4;

const LAST_VARIABLE: u32 = 15;

/// Words that are read one after the other.
#[derive(Drop)]
pub struct Decoder<'a> {
    /// The words that are left.
    pub words: &'a [u32],
    /// The draws met so far.
    pub draws: u32,
}

impl Decoder<'_> {
    // The next word.
    pub fn word(&mut self) -> Result<u32, Refusal>
        ensures { answered same result self.new ≡ word self.old.words.now self.old.draws }
    {
        let (word, rest) = self.words.split_first().ok_or(Refusal::BadWord)?;
        self.words = rest;
        Ok(*word)
    }

    // The next word, which is to be `most` or less.
    #[tactic(auto, unfolding(policy::specs::Readers::word_where))]
    pub fn word_up_to(&mut self, most: u32) -> Result<u32, Refusal>
        ensures reads { answered same result self.new ≡ word_where bad_word (λ w. leb w most) self.old.words.now self.old.draws }
        ensures within { IfOk result (λ w. w ≤ most) }
    {
        let word = self.word()?;
        if most < word {
            return Err(Refusal::BadWord);
        }
        Ok(word)
    }

    // The next word, the number of one of `count` variables or definitions.
    #[tactic(auto, unfolding(policy::specs::Readers::word_where))]
    pub fn number_below(&mut self, count: u32) -> Result<u32, Refusal>
        ensures reads { answered same result self.new ≡ word_where not_in_scope (λ n. ltb n count) self.old.words.now self.old.draws }
        ensures below { IfOk result (λ n. n < count) }
    {
        let number = self.word()?;
        if count <= number {
            return Err(Refusal::NotInScope);
        }
        Ok(number)
    }

    // The width of a row or a pattern.
    #[tactic(auto, unfolding(policy::specs::Readers::word_where, policy::specs::Readers::width))]
    fn width(&mut self) -> Result<u32, Refusal>
        ensures { answered same result self.new ≡ width self.old.words.now self.old.draws }
    {
        let width = self.word()?;
        if width < 1 || MOST_ATOMS < width {
            return Err(Refusal::BadWord);
        }
        Ok(width)
    }

    // What stands after a term's tag: an atom that is `least` or more, or the number of a variable in scope.
    #[tactic(auto, unfolding(policy::specs::Readers::word_where, policy::specs::Readers::term_as, policy::specs::Held::term_is))]
    fn term_after(&mut self, tag: Tag, least: u32, variables: u32) -> Result<Term, Refusal>
        ensures { answered term_is result self.new ≡ term_as (leb least) variables (tag_is tag) self.old.words.now self.old.draws }
    {
        match tag {
            Tag::Atom => {
                let atom = self.word()?;
                if atom < least {
                    return Err(Refusal::BadWord);
                }
                Ok(Term::Atom(atom))
            }
            Tag::Variable => Ok(Term::Variable(self.number_below(variables)?)),
            Tag::New => Err(Refusal::BadWord),
        }
    }

    // A term: 0 and an atom, or 1 and the number of a variable in scope.
    #[tactic(auto, unfolding(policy::specs::Readers::term, policy::specs::Readers::tag_of))]
    fn term(&mut self, variables: u32) -> Result<Term, Refusal>
        ensures { answered term_is result self.new ≡ term variables self.old.words.now self.old.draws }
    {
        let tag = Tag::try_from(self.word()?)?;
        self.term_after(tag, 0, variables)
    }

    // An issuer: a term that is no number.
    #[tactic(auto, unfolding(policy::specs::Readers::issuer, policy::specs::Readers::tag_of))]
    pub fn issuer(&mut self, variables: u32) -> Result<Term, Refusal>
        ensures { answered term_is result self.new ≡ issuer variables self.old.words.now self.old.draws }
    {
        let tag = Tag::try_from(self.word()?)?;
        self.term_after(tag, FIRST_KEY, variables)
    }

    // The number of a new variable, after its tag: the count of those in scope, at most 15.
    #[tactic(auto, unfolding(policy::specs::Readers::word_where, crate::specs::Answers::next))]
    fn new_variable(&mut self, variables: u32) -> Result<u32, Refusal>
        ensures { answered same result self.new ≡ word_where not_in_scope (next variables) self.old.words.now self.old.draws }
    {
        let number = self.word()?;
        if number != variables || LAST_VARIABLE < number {
            return Err(Refusal::NotInScope);
        }
        Ok(number)
    }

    // A slot: a term, or 2 and the number of a new variable.
    #[tactic(auto, unfolding(policy::specs::Readers::tag_of, policy::specs::Held::slot_is, crate::specs::Answers::slot, crate::specs::Answers::slot_for))]
    fn slot(&mut self, variables: u32) -> Result<Slot, Refusal>
        ensures { answered slot_is result self.new ≡ slot variables self.old.words.now self.old.draws }
    {
        match Tag::try_from(self.word()?)? {
            Tag::New => {
                self.new_variable(variables)?;
                Ok(Slot::New)
            }
            tag => Ok(Slot::Old(self.term_after(tag, 0, variables)?)),
        }
    }

    // A guard's code, and the two terms of a comparison.
    #[tactic(auto, unfolding(policy::specs::Decode::guard_of, policy::specs::Held::guard_is, crate::specs::Answers::opening, crate::specs::Answers::opening_for))]
    pub fn guard(&mut self, variables: u32) -> Result<Guard, Refusal>
        ensures { answered guard_is result self.new ≡ opening variables self.old.words.now self.old.draws }
    {
        match GuardCode::try_from(self.word()?)? {
            GuardCode::Draw => Ok(Guard::Draw),
            GuardCode::Same => Ok(Guard::Same(self.term(variables)?, self.term(variables)?)),
            GuardCode::Different => {
                Ok(Guard::Different(self.term(variables)?, self.term(variables)?))
            }
            GuardCode::Absent => Ok(Guard::Absent),
        }
    }

    // A row: a width and its terms.
    pub fn row(&mut self, variables: u32) -> Result<(), Refusal>
        ensures { answered nothing result self.new ≡ keeping nothing (row variables) self.old.words.now self.old.draws }
    {
        let width = self.width()?;
        for _ in 0..width {
            self.term(variables)?;
        }
        Ok(())
    }

    // The rows of a literal: their count, then each.
    pub fn rows(&mut self, variables: u32) -> Result<(), Refusal>
        ensures { answered nothing result self.new ≡ keeping nothing (rows variables) self.old.words.now self.old.draws }
    {
        let count = self.word_up_to(MOST_ROWS as u32)?;
        for _ in 0..count {
            self.row(variables)?;
        }
        Ok(())
    }

    // A pattern: a width and its slots, each new variable in scope for those after it. What is kept is the count of those in scope.
    pub fn pattern(&mut self, variables: u32) -> Result<u32, Refusal>
        ensures { answered same result self.new ≡ keeping scope (pattern variables) self.old.words.now self.old.draws }
    {
        let width = self.width()?;
        let mut count = variables;
        for _ in 0..width {
            if let Slot::New = self.slot(count)? {
                count += 1;
            }
        }
        Ok(count)
    }
}
