// Everything that is read for an answer: the definitions of a policy that passed, then the query.
ghost use Rattle.std.specs.Prelude.{◌*◌, ◌+◌, ◌≤◌, ◌≡◌, true, length};
ghost use Rattle.rows.specs.Layout.{set_room, set_in, set_words, sound_set, put};
ghost use Rattle.policy.specs.Codes.{verdict_number};
ghost use Rattle.policy.specs.Format.{format_of};
ghost use Rattle.engine.specs.Steps.{stores_of, from_asked, held_for, Ready, ReadyPolicy, ReadDefinitions, ReadAll};

use crate::Answer;
use policy::codes::Verdict;
use policy_table::definition_words;
use read_expressions::read_whole;
use read_values::Lent;
use refusals::{Part, Refused};
use rows::SET_ROOM;
use sets::copy;

// A policy and a query that passed under our key, the minute that is asked about, and sound stores.
#[derive(Clone, Copy)]
pub struct Asked<'a> {
    pub policy: &'a [u32],
    pub query: &'a [u32],
    pub our_key: u32,
    pub minute: u32,
    pub store: &'a [u32],
    pub links: &'a [u32],
}

// Definition d's set is built in the 642 words of the definition area from word 642 × d on.
fn place_set(definitions: &mut [u32], d: usize, set: &[u32])
    requires { (sound_set set.now ≡ true) × (set_room * d + set_room ≤ length definitions.old) }
    ensures { definitions.new ≡ put (set_room * d) (set_words (set_in set.now)) definitions.old }
{
    let start = SET_ROOM * d;
    let end = start + SET_ROOM;
    copy(set, &mut definitions[start..end]);
}

// The definitions in file order, each read from its part of the policy and set in its place.
fn read_definitions(
    asked: &Asked<'_>,
    count: usize,
    definitions: &mut [u32],
    scratch: &mut [u32],
) -> Result<u32, Refused>
    requires { ReadyPolicy (stores_of asked.now) asked.now.our_key asked.now.policy.now count definitions.old scratch.old }
    ensures { ReadDefinitions (from_asked asked.now definitions.new count) result }
{
    let mut draws: u32 = 0;
    for d in 0..count {
        let lent = Lent {
            words: definition_words(asked.policy, d),
            store: asked.store,
            links: asked.links,
            minute: asked.minute,
            policy: asked.policy,
            format: asked.policy[0],
            our_key: asked.our_key,
            definitions,
            known: d,
        };
        match read_whole(&lent, draws, scratch) {
            Ok(total) => {
                draws = total;
            }
            Err(refusal) => {
                let part = Part::Definition(d as u32);
                return Err(Refused { refusal, part });
            }
        }
        place_set(definitions, d, scratch);
    }
    Ok(draws)
}

// The definitions, then the query, both in the policy's format. Only an answer touches the answer area.
pub fn read_all(
    asked: &Asked<'_>,
    verdict: Verdict,
    answer: &mut [u32],
    definitions: &mut [u32],
    scratch: &mut [u32],
) -> Result<Answer, Refused>
    requires { Ready (stores_of asked.now) asked.now.our_key asked.now.policy.now asked.now.query.now definitions.old scratch.old × (set_room ≤ length answer.old) }
    ensures { ReadAll asked.now.our_key (format_of asked.now.policy.now) (held_for asked.now) asked.now.policy.now asked.now.query.now (verdict_number verdict) answer.old result answer.new }
{
    let count = asked.policy[1] as usize;
    let before = read_definitions(asked, count, definitions, scratch)?;
    let lent = Lent {
        words: asked.query,
        store: asked.store,
        links: asked.links,
        minute: asked.minute,
        policy: asked.policy,
        format: asked.policy[0],
        our_key: asked.our_key,
        definitions,
        known: count,
    };
    match read_whole(&lent, before, scratch) {
        Err(refusal) => Err(Refused {
            refusal,
            part: Part::Query,
        }),
        Ok(draws) => {
            copy(scratch, answer);
            Ok(Answer { verdict, draws })
        }
    }
}
