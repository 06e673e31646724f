// The readers of expressions and of guards, which call each other. An expression's set is left at the area's front; what lies behind it is free.
// A comprehension gathers its rows at the front, and from `free` on the area is free: below it lie the sets that are drawn from.
// The variables in scope are lent down the calls: a reader may bind more of them, and leaves those that it was lent as they were.
#![tactic(auto)]

ghost use Rattle.std.specs.Prelude.{◌≡◌};
ghost use Rattle.set_algebra.specs.Combined.{is_difference};
ghost use Rattle.read_values.specs.From.{from};
ghost use Rattle.read_expressions.specs.Readers.{AskExpr, AskTwo, AskBody, AskDraw, AskEach, AskAbsent, AskHas, SayExpr, SayTwo, SayBody, SayDraw, SayEach, SayAbsent, SayExprHas, AskWhole, SayWhole};

use policy::Guard;
use policy::codes::Code;
use policy_places::guard_at;
use policy_places::skip::{skip_expr, skip_pattern, skip_row};
use read_leaves::{leaf_has, read_leaf};
use read_steps::{Drawn, combine_parts, draw_next, has_row, insert_head};
use read_values::{Bindings, Lent};
use refusals::Refusal;
use rows::{Form, SET_ROOM};
use set_algebra::Operation;
use sets::clear;

// What is left of a comprehension: so many guards from `at` on, then its head. From `free` on the area is theirs.
#[derive(Clone, Copy)]
struct Body {
    at: usize,
    left: u32,
    free: usize,
}

// An expression, by its code.
#[cycle(readers)]
fn read_expr(
    lent: &Lent<'_>,
    at: usize,
    bindings: &mut Bindings,
    draws: u32,
    area: &mut [u32],
) -> Result<u32, Refusal>
    requires { AskExpr (from lent.now) lent.now.words.now at bindings.old.values bindings.old.count area.old }
    ensures says { SayExpr (from lent.now) lent.now.words.now at bindings.old.values bindings.old.count draws result bindings.new.values area.new }
    ensures same { bindings.new.count ≡ bindings.old.count }
{
    match Code::of(lent.words[at]) {
        Code::Union => read_two(lent, at + 1, Operation::Union, bindings, draws, area),
        Code::Difference => read_two(lent, at + 1, Operation::Difference, bindings, draws, area),
        Code::Comprehension => {
            let body = Body {
                at: at + 2,
                left: lent.words[at + 1],
                free: SET_ROOM,
            };
            clear(area, Form::Finite);
            read_guards(lent, body, bindings, draws, area)
        }
        _ => read_leaf(lent, at, bindings, draws, area),
    }
}

// A union or a difference: the right operand is read into the area behind the left one's set.
#[cycle(readers)]
fn read_two(
    lent: &Lent<'_>,
    at: usize,
    operation: Operation,
    bindings: &mut Bindings,
    draws: u32,
    area: &mut [u32],
) -> Result<u32, Refusal>
    requires { AskTwo (from lent.now) lent.now.words.now at bindings.old.values bindings.old.count area.old }
    ensures says { SayTwo (from lent.now) lent.now.words.now at (is_difference operation) bindings.old.values bindings.old.count draws result bindings.new.values area.new }
    ensures same { bindings.new.count ≡ bindings.old.count }
{
    let used = read_expr(lent, at, bindings, draws, area)?;
    let second = skip_expr(lent.words, at);
    match read_expr(lent, second, bindings, used, &mut area[SET_ROOM..]) {
        Err(refusal) => Err(refusal),
        Ok(total) => combine_parts(operation, total, area),
    }
}

// The guards left, then the head.
#[cycle(readers)]
fn read_guards(
    lent: &Lent<'_>,
    body: Body,
    bindings: &mut Bindings,
    draws: u32,
    area: &mut [u32],
) -> Result<u32, Refusal>
    requires { AskBody (from lent.now) lent.now.words.now body.at body.left bindings.old.values bindings.old.count area.old body.free }
    ensures says { SayBody (from lent.now) lent.now.words.now body.at body.left bindings.old.values bindings.old.count draws body.free area.old result bindings.new.values area.new }
    ensures same { bindings.new.count ≡ bindings.old.count }
{
    if body.left == 0 {
        // Named, so that the answer's two parts are not written apart where calls write theirs, and read back together: see `row_of`.
        let gathered = insert_head(lent, body.at, bindings, draws, area);
        return gathered;
    }
    let left = body.left - 1;
    let free = body.free;
    let guard = guard_at(lent.words, body.at);
    match guard {
        Guard::Draw => {
            let rest = Body {
                at: body.at + 1,
                left,
                free,
            };
            read_draw(lent, rest, bindings, draws, area)
        }
        Guard::Same(_, _) | Guard::Different(_, _) => {
            if bindings.passes(guard) {
                let rest = Body {
                    at: body.at + 5,
                    left,
                    free,
                };
                return read_guards(lent, rest, bindings, draws, area);
            }
            Ok(draws)
        }
        Guard::Absent => {
            let rest = Body {
                at: body.at + 1,
                left,
                free,
            };
            read_absent(lent, rest, bindings, draws, area)
        }
    }
}

// A draw: its operand is read into the free area, and then its rows are drawn.
#[cycle(readers)]
fn read_draw(
    lent: &Lent<'_>,
    body: Body,
    bindings: &mut Bindings,
    draws: u32,
    area: &mut [u32],
) -> Result<u32, Refusal>
    requires { AskDraw (from lent.now) lent.now.words.now body.at body.left bindings.old.values bindings.old.count area.old body.free }
    ensures says { SayDraw (from lent.now) lent.now.words.now body.at body.left bindings.old.values bindings.old.count draws body.free area.old result bindings.new.values area.new }
    ensures same { bindings.new.count ≡ bindings.old.count }
{
    let free = body.free;
    let before = read_expr(lent, body.at, bindings, draws, &mut area[free..])?;
    let pattern = skip_expr(lent.words, body.at);
    let rest = Body {
        at: skip_pattern(lent.words, pattern),
        left: body.left,
        free,
    };
    if area[free] != 0 {
        return Err(Refusal::ComplementDrawn);
    }
    draw_rows(lent, pattern, rest, bindings, before, area)
}

// The rows of the set at `free`, drawn in turn: for each that matches the pattern the guards that follow are read.
#[cycle(readers)]
fn draw_rows(
    lent: &Lent<'_>,
    pattern: usize,
    body: Body,
    bindings: &mut Bindings,
    draws: u32,
    area: &mut [u32],
) -> Result<u32, Refusal>
    requires { AskEach (from lent.now) lent.now.words.now pattern body.at body.left bindings.old.values bindings.old.count area.old body.free }
    ensures says { SayEach (from lent.now) lent.now.words.now pattern body.at body.left bindings.old.values bindings.old.count draws body.free area.old result bindings.new.values area.new }
    ensures same { bindings.new.count ≡ bindings.old.count }
{
    let count = bindings.count;
    let free = body.free;
    let rest = Body {
        at: body.at,
        left: body.left,
        free: free + SET_ROOM,
    };
    let listed = area[free + 1] as usize;
    let mut used = draws;
    let mut i: usize = 0;
    // A loop: the index moves on by as many rows as were drawn.
    while i < listed {
        match draw_next(lent, pattern, bindings, used, &area[free..], i)? {
            Drawn::End(total) => return Ok(total),
            Drawn::Matches { next, draws } => {
                i = next;
                let read = read_guards(lent, rest, bindings, draws, area);
                bindings.count = count;
                used = read?;
            }
        }
    }
    Ok(used)
}

// An absent guard: its row is looked for in its operand, and where it is missing the guards that follow are read.
#[cycle(readers)]
fn read_absent(
    lent: &Lent<'_>,
    body: Body,
    bindings: &mut Bindings,
    draws: u32,
    area: &mut [u32],
) -> Result<u32, Refusal>
    requires { AskAbsent (from lent.now) lent.now.words.now body.at body.left bindings.old.values bindings.old.count area.old body.free }
    ensures says { SayAbsent (from lent.now) lent.now.words.now body.at body.left bindings.old.values bindings.old.count draws body.free area.old result bindings.new.values area.new }
    ensures same { bindings.new.count ≡ bindings.old.count }
{
    let free = body.free;
    let operand = skip_row(lent.words, body.at);
    let (has, used) = expr_has(lent, operand, body.at, bindings, draws, &mut area[free..])?;
    if has {
        return Ok(used);
    }
    let rest = Body {
        at: skip_expr(lent.words, operand),
        left: body.left,
        free,
    };
    read_guards(lent, rest, bindings, used, area)
}

// Whether the row written at `row` belongs to an expression, which is read into the area unless it is a leaf.
#[cycle(readers)]
fn expr_has(
    lent: &Lent<'_>,
    at: usize,
    row: usize,
    bindings: &mut Bindings,
    draws: u32,
    area: &mut [u32],
) -> Result<(bool, u32), Refusal>
    requires { AskHas (from lent.now) lent.now.words.now at row bindings.old.values bindings.old.count area.old }
    ensures says { SayExprHas (from lent.now) lent.now.words.now at row bindings.old.values bindings.old.count draws result bindings.new.values }
    ensures same { bindings.new.count ≡ bindings.old.count }
{
    if !Code::of(lent.words[at]).is_node() {
        return leaf_has(lent, at, row, bindings, draws, area);
    }
    let used = read_expr(lent, at, bindings, draws, area)?;
    Ok((has_row(lent, row, bindings, area), used))
}

/// A whole definition or query that was checked: sound stores, the sets of the definitions before it, and the draws made so far. `Ok` has the draws made then.
pub fn read_whole(lent: &Lent<'_>, draws: u32, area: &mut [u32]) -> Result<u32, Refusal>
    requires { AskWhole (from lent.now) lent.now.words.now area.old }
    ensures { SayWhole (from lent.now) lent.now.words.now draws result area.new }
{
    let mut bindings = Bindings {
        values: [0; 16],
        count: 0,
    };
    read_expr(lent, 0, &mut bindings, draws, area)
}
