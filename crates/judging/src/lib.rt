// A policy and a query judged under a key of ours: refusal 20, then 1 to 7, each part through 3 to 7 before the next.
#![tactic(auto)]

ghost use Rattle.std.specs.Prelude.{◌<◌, ◌≡◌, Ok, IfErr};
ghost use Rattle.refusals.specs.Parts.{IsPart};
ghost use Rattle.rows.specs.Polarities.{polarity_is};
ghost use Rattle.policy.specs.Table.{entry_at, read_table};
ghost use Rattle.policy.specs.Parse.{parse};
ghost use Rattle.policy.specs.Definitions.{check_table, check_policy};
ghost use Rattle.policy.specs.Checking.{verdict_of};
ghost use Rattle.policy.specs.Judgement.{judge};
ghost use Rattle.policy_table.specs.Entries.{entry_place};
ghost use Rattle.policy_table.specs.Tables.{table_read};
ghost use Rattle.check_polarity.specs.Earlier.{scope_at, earlier_is};
ghost use Rattle.judging.specs.Whole.{whole_is, whole_for, definition_parsed, definition_at, query_at};
ghost use Rattle.judging.specs.Reply.{JudgedAs, verdict_is, judged_is};

use check_expressions::check_expr;
use check_polarity::{Definition, Earlier, Facts};
use check_terms::Decoder;
use policy::codes::Verdict;
use policy_table::{Table, polarity_of};
use refusals::{Part, Refusal, Refused};
use rows::{FIRST_KEY, Polarity};

const MOST_LEVELS: u32 = 15;

const MOST_QUERY_WORDS: usize = 1024;

// A definition's or a query's words, and none left over.
fn check_whole(words: &[u32], earlier: &Earlier) -> Result<Facts, Refusal>
    ensures { whole_is result ≡ whole_for (earlier_is earlier.now) (parse (scope_at (earlier_is earlier.now)) words.now) }
{
    let mut decoder = Decoder { words, draws: 0 };
    let facts = check_expr(&mut decoder, MOST_LEVELS, 0, earlier)?;
    if !decoder.words.is_empty() {
        return Err(Refusal::BadWord);
    }
    Ok(facts)
}

// A definition's words, with the polarity that it declares.
fn judge_definition(words: &[u32], polarity: Polarity, earlier: &Earlier) -> Result<Facts, Refusal>
    ensures { whole_is result ≡ whole_for (earlier_is earlier.now) (definition_parsed (earlier_is earlier.now) (polarity_is polarity) words.now) }
{
    let facts = check_whole(words, earlier)?;
    facts.admit(facts.has(polarity))
}

// A query's words: 1 to 1,024 of them. What it shares with a definition is `check_whole`: a definition's length is tested with the table,
// and it declares its polarity, where a query needs to have any.
fn judge_query(words: &[u32], earlier: &Earlier) -> Result<Facts, Refusal>
    ensures { whole_is result ≡ whole_for (earlier_is earlier.now) (query_at (earlier_is earlier.now) words.now) }
{
    if words.is_empty() {
        return Err(Refusal::BadWord);
    }
    if MOST_QUERY_WORDS < words.len() {
        return Err(Refusal::BadWord);
    }
    let facts = check_whole(words, earlier)?;
    facts.admit(facts.plus || facts.minus)
}

#[tactic(auto, unfolding(policy::specs::Checking::verdict_of, crate::specs::Reply::verdict_is))]
fn verdict(facts: Facts) -> Verdict
    ensures { verdict_is result ≡ verdict_of facts.plus facts.minus }
{
    match (facts.plus, facts.minus) {
        (true, true) => Verdict::Exact,
        (true, false) => Verdict::Lower,
        (false, _) => Verdict::Upper,
    }
}

// Definition `i` of the table, by the words of its part.
fn judge_entry(table: &Table<'_>, i: usize, earlier: &Earlier) -> Result<Facts, Refusal>
    requires { i < table.now.count }
    ensures { whole_is result ≡ whole_for (earlier_is earlier.now) (definition_at table.now.policy.now (earlier_is earlier.now) (entry_at table.now.policy.now (entry_place i))) }
{
    let polarity = polarity_of(table.entry(i).polarity);
    judge_definition(table.definition_words(i), polarity, earlier)
}

// The definitions in file order, each through 3 to 7 before the next.
fn judge_definitions(table: &Table<'_>, our_key: u32) -> Result<Earlier, Refused>
    requires { table_read table.now.policy.now (Ok table.now) ≡ read_table table.now.policy.now }
    ensures judged { JudgedAs our_key (check_table our_key table.now.policy.now) result }
    ensures part { IfErr result (λ r. IsPart r.part) }
{
    let mut earlier = Earlier::none(our_key);
    for i in 0..table.count {
        match judge_entry(table, i, &earlier) {
            Err(refusal) => {
                return Err(Refused {
                    refusal,
                    part: Part::Definition(i as u32),
                });
            }
            Ok(facts) => {
                let entry = table.entry(i);
                earlier.push(Definition {
                    name: entry.name,
                    polarity: polarity_of(entry.polarity),
                    open: facts.open,
                });
            }
        }
    }
    Ok(earlier)
}

/// What is known of a policy's definitions: 20 for our key, 1 and 2 for the table, then 3 to 7 for each definition.
pub fn judge_policy(policy: &[u32], our_key: u32) -> Result<Earlier, Refused>
    ensures judged { JudgedAs our_key (check_policy our_key policy.now) result }
    ensures part { IfErr result (λ r. IsPart r.part) }
{
    if our_key < FIRST_KEY {
        return Err(Refused::from(Refusal::NotAKey));
    }
    match Table::read(policy) {
        Ok(table) => judge_definitions(&table, our_key),
        Err(refusal) => Err(Refused::from(refusal)),
    }
}

/// The verdict of a query under a policy and a key of ours, or the refusal: the policy's, then the query's.
pub fn judge(policy: &[u32], query: &[u32], our_key: u32) -> Result<Verdict, Refused>
    ensures judged { judged_is result ≡ judge our_key policy.now query.now }
    ensures part { IfErr result (λ r. IsPart r.part) }
{
    let earlier = judge_policy(policy, our_key)?;
    match judge_query(query, &earlier) {
        Ok(facts) => Ok(verdict(facts)),
        Err(refusal) => Err(Refused {
            refusal,
            part: Part::Query,
        }),
    }
}
