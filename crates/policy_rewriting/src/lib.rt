// An external policy rewritten into a lent area.
#![tactic(auto)]

mod laying;
mod vetting;

ghost use Rattle.std.specs.Prelude.{◌+◌, ◌-◌, ◌≤◌, ◌≡◌, [], length, IfErr};
ghost use Rattle.refusals.specs.Numbers.{told};
ghost use Rattle.refusals.specs.Parts.{IsPart};
ghost use Rattle.rows.specs.Polarities.{polarity_is};
ghost use Rattle.policy.specs.Table.{entry_at};
ghost use Rattle.policy.specs.External.{moved, entry_four, rewrite_into, area_after};
ghost use Rattle.policy_table.specs.Entries.{entry_place};
ghost use Rattle.policy_rewriting.specs.Laid.{laid};
ghost use Rattle.policy_rewriting.specs.Output.{Passing, SayKeys, may_be, AskDefinition, WalkedDefinition, header_of, SayWords, rewritten_for, SayReply};

use judging::judge_policy;
use laying::{lay, lay_words};
use policy_table::{MOST_WORDS, definition_words, entry_place, polarity_of};
use refusals::{Refusal, Refused};
use rows::Polarity;
use vetting::{Laid, Vetting};

// Is definition 0 the negative name 0, which lists compromised keys?
fn lists_keys(policy: &[u32]) -> bool
    requires { Passing policy.now }
    ensures { SayKeys policy.now result }
{
    policy[1] != 0 && policy[2] == 0 && policy[3] == 1
}

// May definition `i` have this polarity?
#[tactic(auto, unfolding(crate::specs::Output::may_be))]
fn may_be(polarity: Polarity, keys: bool, i: usize) -> bool
    ensures { result ≡ may_be keys i (polarity_is polarity) }
{
    polarity == Polarity::Plus || keys && i == 0
}

fn vet_definition(policy: &[u32], i: usize, keys: bool, area: &mut [u32], to: usize) -> Option<Laid>
    requires { AskDefinition policy.now i to }
    ensures { WalkedDefinition keys policy.now i to area.old result area.new }
{
    let polarity = polarity_of(policy[entry_place(i) + 1]);
    if !may_be(polarity, keys, i) {
        return None;
    }
    let vetting = Vetting {
        words: definition_words(policy, i),
        polarity,
        keys,
    };
    vetting.vet_expr(0, area, to)
}

// The table's entry of definition `i`, whose part now goes from `to` up to `end`.
fn lay_entry(policy: &[u32], i: usize, area: &mut [u32], to: usize, end: usize)
    requires { (i ≤ 15) × (entry_place i + 4 ≤ length policy.now) × (to ≤ end) × (end ≤ 65536) }
    ensures { area.new ≡ laid (entry_place i) (entry_four (moved (entry_at policy.now (entry_place i)) to (end - to))) area.old }
{
    let at = entry_place(i);
    let offset = lay_words(area, at, &policy[at..at + 2]);
    lay(area, offset, to as u32);
    lay(area, offset + 1, (end - to) as u32);
}

// The output's first two words: it keeps the policy's format, and has as many definitions.
fn lay_header(policy: &[u32], area: &mut [u32])
    requires { 2 ≤ length policy.now }
    ensures { area.new ≡ laid 0 (header_of policy.now) area.old }
{
    let format = policy[0];
    let count = policy[1];
    lay(area, 0, format);
    lay(area, 1, count);
}

// The output, as far as the area goes, and its length in words; or an external rule is broken.
fn lay_output(policy: &[u32], keys: bool, area: &mut [u32]) -> Option<usize>
    requires { Passing policy.now × SayKeys policy.now keys }
    ensures { SayWords policy.now area.old result area.new }
{
    let count = policy[1] as usize;
    let mut to = entry_place(count);
    for i in 0..count {
        let Some(laid) = vet_definition(policy, i, keys, area, to) else {
            return None;
        };
        lay_entry(policy, i, area, to, laid.end);
        to = laid.end;
    }
    lay_header(policy, area);
    Some(to)
}

// The output's length: lent no words, the same walk measures.
fn measure(policy: &[u32], keys: bool, area: &mut [u32]) -> Option<usize>
    requires { Passing policy.now × SayKeys policy.now keys }
    ensures { SayWords policy.now [] result [] × (area.new ≡ area.old) }
{
    lay_output(policy, keys, &mut area[0..0])
}

// A policy that passed 20 and 1 to 7: 15, then 11, then the output.
fn rewrite_passed(policy: &[u32], area: &mut [u32]) -> Result<usize, Refusal>
    requires { Passing policy.now }
    ensures { SayReply policy.now area.old result area.new }
{
    let keys = lists_keys(policy);
    let Some(length) = measure(policy, keys, area) else {
        return Err(Refusal::NotExternal);
    };
    if MOST_WORDS < length {
        return Err(Refusal::NotExternal);
    }
    if area.len() < length {
        return Err(Refusal::ShortArea);
    }
    lay_output(policy, keys, area);
    Ok(length)
}

/// The external policy rewritten into the area, and the output's length; or the refusal, which leaves the area as it was.
/// Our key goes to the checks alone: our own names are guarded as all others are.
pub fn rewrite(policy: &[u32], our_key: u32, area: &mut [u32]) -> Result<usize, Refused>
    ensures told { (told result ≡ rewritten_for (rewrite_into our_key policy.now area.old)) × (area.new ≡ area_after (rewrite_into our_key policy.now area.old) area.old) }
    ensures part { IfErr result (λ r. IsPart r.part) }
{
    match judge_policy(policy, our_key) {
        Ok(_) => Ok(rewrite_passed(policy, area)?),
        Err(refused) => Err(refused),
    }
}
