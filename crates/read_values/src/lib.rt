// What the terms and rows of terms that stand in the words come to. The values of the variables in scope are the first `count` of the sixteen that the
// readers lend each other, variable 0 first.
#![tactic(auto)]

ghost use Rattle.std.specs.Prelude.{◌≡◌, ◌+◌, ◌<◌, take, set};
ghost use Rattle.policy.specs.Held.{term_is};
ghost use Rattle.meaning.specs.Reading.{tick};
ghost use Rattle.meaning.specs.Values.{value};
ghost use Rattle.read_values.specs.Values.{Bound, passing};
ghost use Rattle.policy_places.specs.Places.{SomeRow};
ghost use Rattle.read_values.specs.Rows.{SayAtom, SayRow};
ghost use Rattle.read_values.specs.Outcomes.{outcome};

use policy::{Guard, Term};
use policy_places::term_at;
use refusals::Refusal;
use row_words::row::Row;

/// What stays the same through a reading: the words that are read, the stores and the minute at which they are looked into, the policy with its format and our
/// key, and the sets of the definitions that were read before, `known` of them. It is passed by `&`: by value its slices are copied at each call.
#[derive(Clone, Copy)]
pub struct Lent<'a> {
    pub words: &'a [u32],
    pub store: &'a [u32],
    pub links: &'a [u32],
    pub minute: u32,
    pub policy: &'a [u32],
    pub format: u32,
    pub our_key: u32,
    pub definitions: &'a [u32],
    pub known: usize,
}

/// The values of the variables in scope, `count` of them, variable 0 first. Behind them a reader may write.
#[derive(Clone, Copy)]
pub struct Bindings {
    pub values: [u32; 16],
    pub count: usize,
}

const MOST_DRAWS: u32 = 1000000;

/// One draw more, unless as many were made as may be.
pub fn tick(draws: u32) -> Result<u32, Refusal>
    ensures { outcome tt result ≡ tick draws }
{
    if MOST_DRAWS <= draws {
        return Err(Refusal::TooManyDraws);
    }
    Ok(draws + 1)
}

impl Bindings {
    // What a term comes to; a checked one names a variable in scope.
    pub fn value_of(&self, term: Term) -> u32
        requires { Bound self.now.values self.now.count }
        ensures { result ≡ value (take self.now.count self.now.values) (term_is term) }
    {
        match term {
            Term::Atom(a) => a,
            Term::Variable(v) => {
                let i = v as usize;
                if i < self.count { self.values[i] } else { 0 }
            }
        }
    }

    // Whether a comparison passes: the two atoms are equal, or differ. A draw and an absent guard compare nothing; of them it says no.
    pub fn passes(&self, guard: Guard) -> bool
        requires { Bound self.now.values self.now.count }
        ensures { result ≡ passing (take self.now.count self.now.values) guard }
    {
        match guard {
            Guard::Same(x, y) => self.value_of(x) == self.value_of(y),
            Guard::Different(x, y) => self.value_of(x) != self.value_of(y),
            Guard::Draw | Guard::Absent => false,
        }
    }

    // The variable after the first `scope` comes to the atom: says how many are bound then. The count is written where all are bound, and not at each: a
    // pattern is matched against rows by the thousand.
    pub fn bind(&mut self, scope: usize, atom: u32) -> usize
        requires { scope < 16 }
        ensures values { self.new.values ≡ set self.old.values scope atom }
        ensures same { self.new.count ≡ self.old.count }
        ensures bound { result ≡ scope + 1 }
    {
        self.values[scope] = atom;
        scope + 1
    }
}

impl Lent<'_> {
    // What term `j` of a row of terms comes to; 0 behind the last.
    pub fn atom_of(&self, at: usize, bindings: &Bindings, j: usize) -> u32
        requires { Bound bindings.now.values bindings.now.count × SomeRow self.now.words.now at }
        ensures { SayAtom self.now.words.now at (take bindings.now.count bindings.now.values) j result }
    {
        let width = self.words[at];
        if width as usize <= j {
            return 0;
        }
        let term = term_at(self.words, at + 1 + 2 * j);
        bindings.value_of(term)
    }

    // The row that the terms come to. Its atoms are not written one by one: a processor waits where words written apart are read back together.
    pub fn row_of(&self, at: usize, bindings: &Bindings) -> Row
        requires { Bound bindings.now.values bindings.now.count × SomeRow self.now.words.now at }
        ensures { SayRow self.now.words.now at (take bindings.now.count bindings.now.values) result }
    {
        let width = self.words[at];
        let a = self.atom_of(at, bindings, 0);
        let b = self.atom_of(at, bindings, 1);
        let c = self.atom_of(at, bindings, 2);
        let d = self.atom_of(at, bindings, 3);
        Row {
            width,
            atoms: [a, b, c, d],
        }
    }
}

// What a term comes to; a checked one names a variable in scope.
pub fn value_of(values: &[u32; 16], count: usize, term: Term) -> u32
    requires { Bound values.now count }
    ensures { result ≡ value (take count values.now) (term_is term) }
{
    match term {
        Term::Atom(a) => a,
        Term::Variable(v) => {
            let i = v as usize;
            if i < count { values[i] } else { 0 }
        }
    }
}
