// The calls of a portal for programs in C and Rust: a slice is a pointer and a length, an out-parameter a pointer. Each hands out all that its reply carries.
#![tactic(auto)]

mod asking;
mod dates;
mod filing;
mod judgement;
mod rewriting;

// What is returned where nothing is refused.
const NO_REFUSAL: u32 = 0;

// What a refusal has beside 0 exact, 1 lower and 2 upper.
const NO_VERDICT: u32 = 3;
