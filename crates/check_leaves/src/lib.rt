// What holds no other expression, checked over its words: the leaves, and the head of a comprehension.
#![tactic(auto)]

ghost use Rattle.std.specs.Prelude.{◌<◌, ◌≡◌};
ghost use Rattle.rows.specs.Polarities.{polarity_is};
ghost use Rattle.policy.specs.Codes.{code_number};
ghost use Rattle.policy.specs.Leaf.{definition};
ghost use Rattle.policy.specs.Syntax.{leaf};
ghost use Rattle.policy.specs.Held.{term_is};
ghost use Rattle.check_terms.specs.Answers.{answered, same};
ghost use Rattle.check_polarity.specs.Earlier.{earlier_is};
ghost use Rattle.check_polarity.specs.Facts.{facts_for};
ghost use Rattle.check_leaves.specs.Checks.{literal_facts, head_facts, definition_facts, issued, issued_is, is_own, name_facts_for, leaf_facts};

use check_polarity::{Earlier, Facts};
use check_terms::Decoder;
use policy::Term;
use policy::codes::Code;
use policy_table::polarity_of;
use refusals::Refusal;
use rows::{LAST_NAME, Polarity};

// The rows of a literal.
fn check_literal(
    decoder: &mut Decoder<'_>,
    variables: u32,
    complement: bool,
) -> Result<Facts, Refusal>
    ensures { answered same result decoder.new ≡ literal_facts complement variables decoder.old.words.now decoder.old.draws }
{
    decoder.rows(variables)?;
    Ok(Facts::of_terms(complement))
}

// The facts of an earlier definition.
fn of_definition(earlier: &Earlier, d: usize) -> Facts
    requires { d < earlier.now.count }
    ensures { result ≡ facts_for (earlier_is earlier.now) (leaf (definition d)) }
{
    let known = earlier.definitions[d];
    Facts::of_polarity(known.polarity, known.open)
}

// An earlier definition, by its number.
fn check_definition(decoder: &mut Decoder<'_>, earlier: &Earlier) -> Result<Facts, Refusal>
    ensures { answered same result decoder.new ≡ definition_facts (earlier_is earlier.now) decoder.old.words.now decoder.old.draws }
{
    let d = decoder.number_below(earlier.count)?;
    Ok(of_definition(earlier, d as usize))
}

// An issuer and a name, as codes 4 and 8 begin.
#[tactic(auto, unfolding(crate::specs::Checks::issued))]
fn read_name(decoder: &mut Decoder<'_>, variables: u32) -> Result<(Term, u32), Refusal>
    ensures { answered issued_is result decoder.new ≡ issued variables decoder.old.words.now decoder.old.draws }
{
    let issuer = decoder.issuer(variables)?;
    let name = decoder.word_up_to(LAST_NAME)?;
    Ok((issuer, name))
}

// Is the issuer our key, fixed? A variable that happens to hold it is not.
#[tactic(auto, unfolding(policy::specs::Held::term_is, crate::specs::Checks::is_own))]
fn is_own(issuer: Term, our_key: u32) -> bool
    ensures { result ≡ is_own our_key (term_is issuer) }
{
    issuer == Term::Atom(our_key)
}

// The facts of a name, its polarity being read: an own name has its definition's, and is refused where that is not available.
fn name_facts(
    issuer: Term,
    name: u32,
    polarity: Polarity,
    earlier: &Earlier,
) -> Result<Facts, Refusal>
    ensures { result ≡ name_facts_for (earlier_is earlier.now) (term_is issuer) name (polarity_is polarity) }
{
    if !is_own(issuer, earlier.our_key) {
        return Ok(Facts::of_polarity(polarity, polarity == Polarity::Minus));
    }
    match earlier.position(name, polarity) {
        Some(d) => Ok(of_definition(earlier, d)),
        None => Err(Refusal::NotInScope),
    }
}

// A name: issuer, name, polarity.
fn check_name(
    decoder: &mut Decoder<'_>,
    variables: u32,
    earlier: &Earlier,
) -> Result<Facts, Refusal>
    ensures { answered same result decoder.new ≡ leaf_facts (earlier_is earlier.now) variables 4 decoder.old.words.now decoder.old.draws }
{
    let (issuer, name) = read_name(decoder, variables)?;
    let polarity = polarity_of(decoder.word_up_to(1)?);
    name_facts(issuer, name, polarity, earlier)
}

// A name whose issuer is looked up: issuer, name, polarity +, the definition that the issuer is to be absent from.
fn check_vetted(
    decoder: &mut Decoder<'_>,
    variables: u32,
    earlier: &Earlier,
) -> Result<Facts, Refusal>
    ensures { answered same result decoder.new ≡ leaf_facts (earlier_is earlier.now) variables 8 decoder.old.words.now decoder.old.draws }
{
    let (issuer, name) = read_name(decoder, variables)?;
    decoder.word_up_to(0)?;
    let guarded = name_facts(issuer, name, Polarity::Plus, earlier)?;
    // The more rows that definition has, the fewer this has, as in a difference.
    let absent_from = check_definition(decoder, earlier)?;
    Ok(guarded.difference(absent_from))
}

// A leaf, after its code; a code that is no leaf's is refused.
pub fn check_leaf(
    decoder: &mut Decoder<'_>,
    variables: u32,
    earlier: &Earlier,
    code: Code,
) -> Result<Facts, Refusal>
    ensures { answered same result decoder.new ≡ leaf_facts (earlier_is earlier.now) variables (code_number code) decoder.old.words.now decoder.old.draws }
{
    match code {
        Code::Finite => check_literal(decoder, variables, false),
        Code::Cofinite => check_literal(decoder, variables, true),
        Code::Definition => check_definition(decoder, earlier),
        Code::Name => check_name(decoder, variables, earlier),
        Code::Vetted => check_vetted(decoder, variables, earlier),
        Code::Union | Code::Difference | Code::Comprehension => Err(Refusal::BadWord),
    }
}

// The head of a comprehension.
pub fn check_head(decoder: &mut Decoder<'_>, variables: u32) -> Result<Facts, Refusal>
    ensures { answered same result decoder.new ≡ head_facts variables decoder.old.words.now decoder.old.draws }
{
    decoder.row(variables)?;
    Ok(Facts::of_terms(false))
}
