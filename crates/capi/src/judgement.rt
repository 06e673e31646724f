// A policy and a query judged, and the words of their parts found.
ghost use Rattle.std.specs.Prelude.{◌≡◌};
ghost use Rattle.policy.specs.Judgement.{judge};
ghost use Rattle.capi.specs.Replies.{hand_judgement};
ghost use Rattle.capi.specs.Spans.{PartAt};

use crate::{NO_REFUSAL, NO_VERDICT};
use judging::judge;
use policy_table::parts::{PartSpan, part_span};
use refusals::NO_PART;

// Judges a policy and a query under our key: the refusal's number, 0 for none.
#[unsafe(no_mangle)]
pub extern "C" fn txb_judge(
    policy: &[u32],
    query: &[u32],
    our_key: u32,
    part: &mut u32,
    verdict: &mut u32,
) -> u32
    ensures { hand_judgement (judge our_key policy.now query.now)
        ≡ record { number = result; part = part.new; verdict = verdict.new } }
{
    match judge(policy, query, our_key) {
        Ok(given) => {
            *part = NO_PART;
            *verdict = u32::from(given);
            NO_REFUSAL
        }
        Err(refused) => {
            *part = u32::from(refused.part);
            *verdict = NO_VERDICT;
            u32::from(refused.refusal)
        }
    }
}

// Where the words of a part stand: how many they are, whether they are of the query, and the word where they start.
#[unsafe(no_mangle)]
pub extern "C" fn txb_part(
    policy: &[u32],
    query: &[u32],
    number: u32,
    of_query: &mut u32,
    start: &mut usize,
) -> usize
    ensures { PartAt policy.now query.now number
        (record { size = result; of_query = of_query.new; start = start.new }) }
{
    match part_span(policy, number) {
        PartSpan::WholeQuery => {
            *of_query = 1;
            *start = 0;
            query.len()
        }
        PartSpan::InPolicy { start: from, size } => {
            *of_query = 0;
            *start = from;
            size
        }
    }
}
