// Policies and queries: the definitions are in `specs/` and what is shown of them in `proofs/`. Here are what the code goes by: the numbers in a policy's words
// (`codes`), and the terms, slots and guards that checker and readers hold.
#![tactic(auto)]

pub mod codes;

#[derive(Clone, Copy, Debug, PartialEq, Eq)]
pub enum Term {
    Atom(u32),
    Variable(u32),
}

// A new variable's number is the count of those in scope, so it is not kept.
#[derive(Clone, Copy, Debug, PartialEq, Eq)]
pub enum Slot {
    Old(Term),
    New,
}

// A guard as far as its expression: a comparison whole, of the others the code.
#[derive(Clone, Copy, Debug, PartialEq, Eq)]
pub enum Guard {
    Draw,
    Same(Term, Term),
    Different(Term, Term),
    Absent,
}
