// What stands in the words of a checked policy or query: the term, slot or guard at a place, and the place after it. The walkers of these words stay apart:
// the checker's test each word, the readers' come to a set, those here pass over what they need not read, the rewriter's copy as they go.
#![tactic(auto)]

pub mod skip;

ghost use Rattle.std.specs.Prelude.{◌+◌, ◌≤◌, length};
ghost use Rattle.policy_places.specs.Places.{IsTerm, IsSlot, IsGuard, SomeGuard};

use policy::codes::{GuardCode, Tag};
use policy::{Guard, Slot, Term};

pub fn term_at(words: &[u32], at: usize) -> Term
    requires { at + 2 ≤ length words.now }
    ensures { IsTerm words.now at result }
{
    let word = words[at + 1];
    // An `if`, no match on tags: any word may stand here, and one that is no atom's tag is read as a variable's.
    if words[at] == Tag::Atom as u32 {
        Term::Atom(word)
    } else {
        Term::Variable(word)
    }
}

pub fn slot_at(words: &[u32], at: usize) -> Slot
    requires { at + 2 ≤ length words.now }
    ensures { IsSlot words.now at result }
{
    // An `if` for the same reason: any other word begins a term.
    if words[at] == Tag::New as u32 {
        Slot::New
    } else {
        Slot::Old(term_at(words, at))
    }
}

pub fn guard_at(words: &[u32], at: usize) -> Guard
    requires { SomeGuard words.now at }
    ensures { IsGuard words.now at result }
{
    match GuardCode::of(words[at]) {
        GuardCode::Draw => Guard::Draw,
        GuardCode::Same => Guard::Same(term_at(words, at + 1), term_at(words, at + 3)),
        GuardCode::Different => Guard::Different(term_at(words, at + 1), term_at(words, at + 3)),
        GuardCode::Absent => Guard::Absent,
    }
}
