// Past what stands in the words: the place after it.
ghost use Rattle.std.specs.Prelude.{ℕ, ◌+◌, ◌*◌, ◌≤◌, ◌≡◌, length, get_or};
ghost use Rattle.policy_places.specs.Places.{SomeRow, SomePattern, SomeRows, SomeLeaf, SomeExpr, SomeBody, PastRow, PastPattern, PastRows, PastLeaf, PastExpr, PastBody};

use policy::codes::{Code, GuardCode};

// A width, and two words for each term or slot.
fn skip_wide(words: &[u32], at: usize) -> usize
    requires { at + 1 + 2 * get_or words.now at 0 ≤ length words.now }
    ensures { result ≡ at + 1 + 2 * get_or words.now at 0 }
{
    let width = words[at] as usize;
    at + 1 + 2 * width
}

// A row: its width, and two words a term.
pub fn skip_row(words: &[u32], at: usize) -> usize
    requires { SomeRow words.now at }
    ensures { PastRow words.now at result }
{
    skip_wide(words, at)
}

// A pattern: its width, and two words a slot.
pub fn skip_pattern(words: &[u32], at: usize) -> usize
    requires { (n : ℕ) × SomePattern n words.now at }
    ensures { PastPattern words.now at result }
{
    skip_wide(words, at)
}

// A count, and that many rows.
fn skip_rows(words: &[u32], at: usize) -> usize
    requires { SomeRows words.now at }
    ensures { PastRows words.now at result }
{
    let mut next = at + 1;
    for _ in 0..words[at] {
        next = skip_row(words, next);
    }
    next
}

// An expression that holds no other.
pub fn skip_leaf(words: &[u32], at: usize) -> usize
    requires { SomeLeaf words.now at }
    ensures { PastLeaf words.now at result }
{
    match Code::of(words[at]) {
        Code::Definition => at + 2,
        Code::Name => at + 5,
        Code::Vetted => at + 6,
        _ => skip_rows(words, at + 1),
    }
}

#[cycle(skipping)]
pub fn skip_expr(words: &[u32], at: usize) -> usize
    requires { SomeExpr words.now at }
    ensures { PastExpr words.now at result }
{
    match Code::of(words[at]) {
        Code::Comprehension => {
            let left = words[at + 1];
            skip_guards(words, at + 2, left)
        }
        Code::Union | Code::Difference => {
            let second = skip_expr(words, at + 1);
            skip_expr(words, second)
        }
        _ => skip_leaf(words, at),
    }
}

// The guards left, and the head.
#[cycle(skipping)]
fn skip_guards(words: &[u32], at: usize, left: u32) -> usize
    requires { SomeBody words.now at left }
    ensures { PastBody words.now at left result }
{
    if left == 0 {
        return skip_row(words, at);
    }
    let rest = match GuardCode::of(words[at]) {
        GuardCode::Draw => {
            let pattern = skip_expr(words, at + 1);
            skip_pattern(words, pattern)
        }
        GuardCode::Absent => {
            let inner = skip_row(words, at + 1);
            skip_expr(words, inner)
        }
        GuardCode::Same | GuardCode::Different => at + 5,
    };
    skip_guards(words, rest, left - 1)
}
