// The policy's table: refusals 1 and 2. No sum is taken that could wrap.
#![tactic(auto)]

mod entries;
pub mod parts;
mod reading;

ghost use Rattle.std.specs.Prelude.{◌+◌, ◌≤◌, ◌≡◌, length};
ghost use Rattle.policy.specs.Table.{entry_at, entry_words};
ghost use Rattle.policy_table.specs.Entries.{entry_place};

pub use entries::{Entry, entry_place, find_definition, polarity_of};
pub use reading::{MOST_WORDS, Table};

// The words of definition `i`, a part of the policy, for those who know its table to be sound and do not read it again.
#[tactic(auto, unfolding(policy::specs::Table::entry_words, policy::specs::Table::entry_at))]
pub fn definition_words<'a>(policy: &'a [u32], i: usize) -> &'a [u32]
    requires { (i ≤ 15) × (entry_place i + 4 ≤ length policy.now) × ((entry_at policy.now (entry_place i)).offset + (entry_at policy.now (entry_place i)).size ≤ length policy.now) }
    ensures { result.now ≡ entry_words policy.now (entry_at policy.now (entry_place i)) }
{
    let entry = Entry::at(policy, entry_place(i));
    &policy[entry.offset..entry.offset + entry.size]
}
