// A policy's table read: refusals 1 and 2. No sum is taken that could wrap.
ghost use Rattle.std.specs.Prelude.{ℕ, ◌+◌, ◌*◌, ◌≤◌, ◌<◌, ◌≡◌, length, IfOk};
ghost use Rattle.rows.specs.Word.{All};
ghost use Rattle.policy.specs.Format.{is_format};
ghost use Rattle.policy.specs.Table.{entry_at, sound_entry, sound_header, entry_words, read_table};
ghost use Rattle.policy_table.specs.Entries.{entry_is, entry_place, entries_before, Polarized, Inside};

use crate::definition_words;
use crate::entries::{Entry, entry_place, find_definition, polarity_of};
use policy::codes::Format;
use refusals::Refusal;
use rows::LAST_NAME;

/// The most words of a policy.
pub const MOST_WORDS: usize = 8192;

const MOST_DEFINITIONS: u32 = 16;

/// A policy whose table is sound, and the count of its definitions.
#[derive(Clone, Copy)]
pub struct Table<'a> {
    pub policy: &'a [u32],
    pub count: usize,
    ghost few: { count ≤ 16 },
    ghost fits: { entry_place count ≤ length policy.now },
    ghost inside: { (i : ℕ) → i < count → Inside policy.now (entry_at policy.now (entry_place i)) },
}

impl<'a> Table<'a> {
    ghost use Rattle.policy_table.specs.Tables.{table_read};

    /// Refuses a policy whose header (1) or an entry of whose table (2) is unsound.
    pub fn read(policy: &'a [u32]) -> Result<Table<'a>, Refusal>
        ensures table { table_read policy.now result ≡ read_table policy.now }
        ensures policy { IfOk result (λ t. t.policy ≡ policy.entry) }
    {
        if !sound_header(policy) {
            return Err(Refusal::BadHeader);
        }
        let count = policy[1] as usize;
        let mut due = entry_place(count);
        for i in 0..count {
            if !sound_entry(policy, i, due) {
                return Err(Refusal::BadTable);
            }
            due += Entry::at(policy, entry_place(i)).size;
        }
        if due != policy.len() {
            return Err(Refusal::BadTable);
        }
        Ok(Table { policy, count })
    }

    pub fn entry(&self, i: usize) -> Entry
        requires { i < self.now.count }
        ensures { entry_is result ≡ entry_at self.now.policy.now (entry_place i) }
    {
        Entry::at(self.policy, entry_place(i))
    }

    // The words of definition `i`: a part of the policy.
    pub fn definition_words(&self, i: usize) -> &'a [u32]
        requires { i < self.now.count }
        ensures { result.now ≡ entry_words self.now.policy.now (entry_at self.now.policy.now (entry_place i)) }
    {
        definition_words(self.policy, i)
    }
}

// May a policy's word 0 be this?
#[tactic(auto, using(crate::proofs::Formats::format_read))]
fn is_format(word: u32) -> bool
    ensures { result ≡ is_format word }
{
    Format::try_from(word).is_ok()
}

#[tactic(auto, unfolding(policy::specs::Table::sound_header))]
fn sound_header(policy: &[u32]) -> bool
    ensures { result ≡ sound_header policy.now }
{
    2 <= policy.len()
        && policy.len() <= MOST_WORDS
        && is_format(policy[0])
        && policy[1] <= MOST_DEFINITIONS
        && entry_place(policy[1] as usize) <= policy.len()
}

// Does entry `i` keep its rules, its part being due at word `due`?
#[tactic(auto, unfolding(policy::specs::Table::sound_entry), using(crate::proofs::Declared::none_named))]
fn sound_entry(policy: &[u32], i: usize, due: usize) -> bool
    requires { (i ≤ 15) × (entry_place i + 4 ≤ length policy.now) × (due ≤ length policy.now) × All Polarized (entries_before policy.now i) }
    ensures { result ≡ sound_entry policy.now due (entries_before policy.now i) (entry_at policy.now (entry_place i)) }
{
    let entry = Entry::at(policy, entry_place(i));
    entry.name <= LAST_NAME
        && entry.polarity <= 1
        && entry.offset == due
        && entry.size != 0
        && entry.size <= policy.len() - due
        && find_definition(policy, i, entry.name, polarity_of(entry.polarity)).is_none()
}
