// Queries answered.
ghost use Rattle.demands.specs.Query.{lent};
ghost use Rattle.capi.specs.Replies.{Asked};

use crate::{NO_REFUSAL, NO_VERDICT};
use engine::query as ask;
use refusals::NO_PART;

// Answers a query under our key: the refusal's number, 0 for none.
#[unsafe(no_mangle)]
pub extern "C" fn txb_query<'a>(
    policy: &'a [u32],
    query: &'a [u32],
    our_key: u32,
    minute: u32,
    store: &[u32],
    links: &[u32],
    answer: &mut [u32],
    definitions: &mut [u32],
    scratch: &mut [u32],
    part: &mut u32,
    verdict: &mut u32,
    draws: &mut u32,
) -> u32
    ensures { Asked (record { store = store.entry.now; links = links.entry.now })
        (lent policy.now query.now our_key minute answer.old definitions.old scratch.old)
        (record { number = result; part = part.new; verdict = verdict.new; draws = draws.new })
        answer.new (record { store = store.exit.now; links = links.exit.now }) }
{
    match ask(
        policy,
        query,
        our_key,
        minute,
        store,
        links,
        answer,
        definitions,
        scratch,
    ) {
        Ok(given) => {
            *part = NO_PART;
            *verdict = u32::from(given.verdict);
            *draws = given.draws;
            NO_REFUSAL
        }
        Err(refused) => {
            *part = u32::from(refused.part);
            *verdict = NO_VERDICT;
            *draws = 0;
            u32::from(refused.refusal)
        }
    }
}
