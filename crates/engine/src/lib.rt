// The query call: a policy and a query judged under our key, then read from the certificates that hold at a minute, along links.
#![tactic(auto)]

mod answering;

ghost use Rattle.std.specs.Prelude.{◌≡◌, ◌&&◌, leb};
ghost use Rattle.rows.specs.Layout.{set_room};
ghost use Rattle.demands.specs.Query.{definition_room, scratch_room, lent};
ghost use Rattle.engine.specs.Reply.{Replied};

use crate::answering::{Asked, read_all};
use judging::judge;
use policy::codes::Verdict;
use refusals::{Refusal, Refused};
use rows::SET_ROOM;
use store::{sound_links, sound_store};

/// What an answer says beside its set, which lies in the answer area.
#[derive(Clone, Copy, Debug, PartialEq, Eq)]
pub struct Answer {
    pub verdict: Verdict,
    pub draws: u32,
}

const DEFINITION_ROOM: usize = 10272;

const SCRATCH_ROOM: usize = 16384;

// Are the three areas long enough?
#[tactic(auto, using(std::proofs::lemmas::Bool::Decides::nat_tests))]
fn roomy(answer: usize, definitions: usize, scratch: usize) -> bool
    ensures { result ≡ (leb set_room answer && (leb definition_room definitions && leb scratch_room scratch)) }
{
    SET_ROOM <= answer && DEFINITION_ROOM <= definitions && SCRATCH_ROOM <= scratch
}

/// Answers a query under a policy from the certificates in the store that hold at the minute, and the links: 20, 1 to 7, 8, 18, 11, then
/// what is met while reading. The stores and, where it is refused, the answer area stay as they were.
// Each slice is a parameter of its own: the contract says of each store what it holds when the call ends.
pub fn query<'a>(
    policy: &'a [u32],
    query: &'a [u32],
    our_key: u32,
    minute: u32,
    store: &[u32],
    links: &[u32],
    answer: &mut [u32],
    definitions: &mut [u32],
    scratch: &mut [u32],
) -> Result<Answer, Refused>
    ensures { Replied (record { store = store.entry.now; links = links.entry.now })
        (lent policy.now query.now our_key minute answer.old definitions.old scratch.old)
        result answer.new (record { store = store.exit.now; links = links.exit.now }) }
{
    let verdict = judge(policy, query, our_key)?;
    if !sound_store(store) {
        return Err(Refused::from(Refusal::BadStore));
    }
    if !sound_links(links) {
        return Err(Refused::from(Refusal::BadLink));
    }
    if !roomy(answer.len(), definitions.len(), scratch.len()) {
        return Err(Refused::from(Refusal::ShortArea));
    }
    let asked = Asked {
        policy,
        query,
        our_key,
        minute,
        store,
        links,
    };
    read_all(&asked, verdict, answer, definitions, scratch)
}
