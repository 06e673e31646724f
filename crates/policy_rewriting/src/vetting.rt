// A checked definition walked over: is it external, and its words in the output.
ghost use Rattle.std.specs.Prelude.{◌+◌, ◌-◌, ◌≤◌, ◌≡◌, ◌<◌, length, get_or, take, drop};
ghost use Rattle.rows.specs.Polarities.{polarity_is};
ghost use Rattle.policy.specs.Codes.{code_number};
ghost use Rattle.policy_places.specs.Places.{SomeLeaf, SomeExpr, SomeBody};
ghost use Rattle.policy_rewriting.specs.Laid.{laid};

use crate::laying::{lay, lay_words};
use policy::codes::{Code, GuardCode};
use policy_places::skip::{skip_leaf, skip_pattern, skip_row};
use rows::Polarity;

// The definition that lists compromised keys.
const KEYS: u32 = 0;

/// The place after what was passed in a definition's words, and the place after what was laid in the output.
#[derive(Clone, Copy, Debug, PartialEq, Eq)]
pub struct Laid {
    pub next: usize,
    pub end: usize,
}

/// A definition that is walked over: its words, its polarity, and whether the policy lists compromised keys. A walk gives `None` where an external rule is broken.
#[derive(Clone, Copy)]
pub struct Vetting<'a> {
    pub words: &'a [u32],
    pub polarity: Polarity,
    pub keys: bool,
}

impl Vetting<'_> {
    ghost use Rattle.policy_rewriting.specs.Walks.{CodeRead, GuardRead, vets, Roomy, WalkedLeaf, WalkedExpr, WalkedBody};

    // The code of the expression that stands there; one of code `none` is in no external policy.
    fn read_code(&self, at: usize, none: Code) -> Option<Code>
        requires { (at < length self.now.words.now) × (1 ≤ get_or self.now.words.now at 0) × (get_or self.now.words.now at 0 ≤ 8) }
        ensures { CodeRead (get_or self.now.words.now at 0) (code_number none) result }
    {
        let code = Code::of(self.words[at]);
        if code == none {
            return None;
        }
        Some(code)
    }

    // The code of the guard that stands there; an absent one is in no external policy.
    fn read_guard(&self, at: usize) -> Option<GuardCode>
        requires { (at < length self.now.words.now) × (1 ≤ get_or self.now.words.now at 0) × (get_or self.now.words.now at 0 ≤ 4) }
        ensures { GuardRead (get_or self.now.words.now at 0) result }
    {
        let code = GuardCode::of(self.words[at]);
        if code == GuardCode::Absent {
            return None;
        }
        Some(code)
    }

    // Are its names vetted?
    #[tactic(auto, unfolding(crate::specs::Walks::vets))]
    fn vets(&self) -> bool
        ensures { result ≡ vets self.now.keys (polarity_is self.now.polarity) }
    {
        self.keys && self.polarity == Polarity::Plus
    }

    // The words from `at` up to `next`, laid as they are.
    fn copy(&self, at: usize, next: usize, area: &mut [u32], to: usize) -> usize
        requires { (at ≤ next) × (next ≤ length self.now.words.now) × (to + (next - at) ≤ 65536) }
        ensures { (result ≡ to + (next - at)) × (area.new ≡ laid to (take (next - at) (drop at self.now.words.now)) area.old) }
    {
        lay_words(area, to, &self.words[at..next])
    }

    // A name that the definition may read: as it is, or code 8 with the same words and then the definition's number.
    fn vet_name(&self, at: usize, area: &mut [u32], to: usize) -> Option<Laid>
        requires { SomeLeaf self.now.words.now at × (get_or self.now.words.now at 0 ≡ 4) × Roomy self.now.words.now at to }
        ensures { WalkedLeaf self.now.keys (polarity_is self.now.polarity) self.now.words.now at to area.old result area.new }
    {
        if self.words[at + 4] != u32::from(self.polarity) {
            return None;
        }
        let next = at + 5;
        if !self.vets() {
            let end = self.copy(at, next, area, to);
            return Some(Laid { next, end });
        }
        lay(area, to, u32::from(Code::Vetted));
        let last = self.copy(at + 1, next, area, to + 1);
        lay(area, last, KEYS);
        Some(Laid {
            next,
            end: last + 1,
        })
    }

    // A leaf.
    fn vet_leaf(&self, at: usize, area: &mut [u32], to: usize) -> Option<Laid>
        requires { SomeLeaf self.now.words.now at × Roomy self.now.words.now at to }
        ensures { WalkedLeaf self.now.keys (polarity_is self.now.polarity) self.now.words.now at to area.old result area.new }
    {
        let Some(code) = self.read_code(at, Code::Vetted) else {
            return None;
        };
        match code {
            Code::Name => self.vet_name(at, area, to),
            _ => {
                let next = skip_leaf(self.words, at);
                let end = self.copy(at, next, area, to);
                Some(Laid { next, end })
            }
        }
    }

    #[cycle(vetting)]
    pub fn vet_expr(&self, at: usize, area: &mut [u32], to: usize) -> Option<Laid>
        requires { SomeExpr self.now.words.now at × Roomy self.now.words.now at to }
        ensures { WalkedExpr self.now.keys (polarity_is self.now.polarity) self.now.words.now at to area.old result area.new }
    {
        let Some(code) = self.read_code(at, Code::Difference) else {
            return None;
        };
        match code {
            Code::Comprehension => {
                lay(area, to, u32::from(code));
                let left = self.words[at + 1];
                lay(area, to + 1, left);
                self.vet_guards(at + 2, left, area, to + 2)
            }
            Code::Union => {
                lay(area, to, u32::from(code));
                let Some(first) = self.vet_expr(at + 1, area, to + 1) else {
                    return None;
                };
                self.vet_expr(first.next, area, first.end)
            }
            _ => self.vet_leaf(at, area, to),
        }
    }

    // The guards left, and the head.
    #[cycle(vetting)]
    fn vet_guards(&self, at: usize, left: u32, area: &mut [u32], to: usize) -> Option<Laid>
        requires { SomeBody self.now.words.now at left × Roomy self.now.words.now at to }
        ensures { WalkedBody self.now.keys (polarity_is self.now.polarity) self.now.words.now at left to area.old result area.new }
    {
        if left == 0 {
            let next = skip_row(self.words, at);
            let end = self.copy(at, next, area, to);
            return Some(Laid { next, end });
        }
        let Some(code) = self.read_guard(at) else {
            return None;
        };
        match code {
            GuardCode::Draw => {
                lay(area, to, GuardCode::Draw as u32);
                let Some(operand) = self.vet_expr(at + 1, area, to + 1) else {
                    return None;
                };
                let rest = skip_pattern(self.words, operand.next);
                let past = self.copy(operand.next, rest, area, operand.end);
                self.vet_guards(rest, left - 1, area, past)
            }
            _ => {
                let past = self.copy(at, at + 5, area, to);
                self.vet_guards(at + 5, left - 1, area, past)
            }
        }
    }
}
