// An expression checked in one pass over its words: refusals 3, 4 and 5 at the first word that breaks a rule, and on the way which polarities
// it has, whether it is open, and whether every draw is from a set that is not.
#![tactic(auto)]

ghost use Rattle.std.specs.Prelude.{◌≡◌};
ghost use Rattle.policy.specs.Codes.{code_number};
ghost use Rattle.policy.specs.Decode.{count_draw, is_draw, is_absent};
ghost use Rattle.check_terms.specs.Answers.{answered, same};
ghost use Rattle.check_polarity.specs.Earlier.{earlier_is};
ghost use Rattle.check_expressions.specs.Expressions.{inside, expr_facts, two_facts, code_facts, body_facts, guard_facts};

use check_leaves::{check_head, check_leaf};
use check_polarity::{Earlier, Facts};
use check_terms::Decoder;
use policy::Guard;
use policy::codes::Code;
use refusals::Refusal;

const MOST_GUARDS: u32 = 8;

const MOST_DRAW_GUARDS: u32 = 8;

// An expression, with so many levels of depth left; with none left it is refused at its code word.
#[cycle(checkers)]
pub fn check_expr(
    decoder: &mut Decoder<'_>,
    levels: u32,
    variables: u32,
    earlier: &Earlier,
) -> Result<Facts, Refusal>
    ensures { answered same result decoder.new ≡ expr_facts (earlier_is earlier.now) levels variables decoder.old.words.now decoder.old.draws }
{
    let code = Code::try_from(decoder.word()?)?;
    if levels == 0 {
        return Err(Refusal::TooDeep);
    }
    check_code(decoder, levels - 1, variables, earlier, code)
}

// What follows a code: the parts of a node, or a leaf.
#[cycle(checkers)]
fn check_code(
    decoder: &mut Decoder<'_>,
    levels: u32,
    variables: u32,
    earlier: &Earlier,
    code: Code,
) -> Result<Facts, Refusal>
    ensures { answered same result decoder.new ≡ code_facts (earlier_is earlier.now) (inside (earlier_is earlier.now) levels) variables (code_number code) decoder.old.words.now decoder.old.draws }
{
    match code {
        Code::Union => {
            let (left, right) = check_two(decoder, levels, variables, earlier)?;
            Ok(left.union(right))
        }
        Code::Difference => {
            let (left, right) = check_two(decoder, levels, variables, earlier)?;
            Ok(left.difference(right))
        }
        Code::Comprehension => {
            let count = decoder.word_up_to(MOST_GUARDS)?;
            check_guards(decoder, levels, variables, earlier, count)
        }
        _ => check_leaf(decoder, variables, earlier, code),
    }
}

// The two parts of a union or of a difference.
#[cycle(checkers)]
fn check_two(
    decoder: &mut Decoder<'_>,
    levels: u32,
    variables: u32,
    earlier: &Earlier,
) -> Result<(Facts, Facts), Refusal>
    ensures { answered same result decoder.new ≡ two_facts (earlier_is earlier.now) levels variables decoder.old.words.now decoder.old.draws }
{
    let left = check_expr(decoder, levels, variables, earlier)?;
    let right = check_expr(decoder, levels, variables, earlier)?;
    Ok((left, right))
}

// The guards that are left, and then the head.
#[cycle(checkers)]
fn check_guards(
    decoder: &mut Decoder<'_>,
    levels: u32,
    variables: u32,
    earlier: &Earlier,
    left: u32,
) -> Result<Facts, Refusal>
    ensures { answered same result decoder.new ≡ body_facts (earlier_is earlier.now) (inside (earlier_is earlier.now) levels) left variables decoder.old.words.now decoder.old.draws }
{
    if left == 0 {
        return check_head(decoder, variables);
    }
    match decoder.guard(variables)? {
        Guard::Draw => check_draw(decoder, levels, variables, earlier, left - 1),
        Guard::Same(_, _) => check_guards(decoder, levels, variables, earlier, left - 1),
        Guard::Different(_, _) => check_guards(decoder, levels, variables, earlier, left - 1),
        Guard::Absent => check_absent(decoder, levels, variables, earlier, left - 1),
    }
}

// One draw more, counted where it begins.
#[tactic(auto, unfolding(policy::specs::Decode::count_draw))]
fn count_draw(decoder: &mut Decoder<'_>) -> Result<(), Refusal>
    ensures { answered same result decoder.new ≡ count_draw decoder.old.words.now decoder.old.draws }
{
    if MOST_DRAW_GUARDS <= decoder.draws {
        return Err(Refusal::TooDeep);
    }
    decoder.draws += 1;
    Ok(())
}

// A draw: its expression, its pattern, and the guards after it.
#[cycle(checkers)]
fn check_draw(
    decoder: &mut Decoder<'_>,
    levels: u32,
    variables: u32,
    earlier: &Earlier,
    left: u32,
) -> Result<Facts, Refusal>
    ensures { answered same result decoder.new ≡ guard_facts (earlier_is earlier.now) (inside (earlier_is earlier.now) levels) left variables is_draw decoder.old.words.now decoder.old.draws }
{
    count_draw(decoder)?;
    let drawn = check_expr(decoder, levels, variables, earlier)?;
    let scope = decoder.pattern(variables)?;
    let rest = check_guards(decoder, levels, scope, earlier, left)?;
    Ok(drawn.drawn(rest))
}

// An absent guard: its row, its expression, and the guards after it.
#[cycle(checkers)]
fn check_absent(
    decoder: &mut Decoder<'_>,
    levels: u32,
    variables: u32,
    earlier: &Earlier,
    left: u32,
) -> Result<Facts, Refusal>
    ensures { answered same result decoder.new ≡ guard_facts (earlier_is earlier.now) (inside (earlier_is earlier.now) levels) left variables is_absent decoder.old.words.now decoder.old.draws }
{
    decoder.row(variables)?;
    let lacking = check_expr(decoder, levels, variables, earlier)?;
    let rest = check_guards(decoder, levels, variables, earlier, left)?;
    Ok(lacking.lacking(rest))
}
