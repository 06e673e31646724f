// The entries of a policy's table, four words each, one for each definition.
ghost use Rattle.std.specs.Prelude.{◌+◌, ◌*◌, ◌≤◌, ◌<◌, ◌≡◌, length, MatchOption};
ghost use Rattle.rows.specs.Name.{polarity_of};
ghost use Rattle.rows.specs.Polarities.{polarity_is};
ghost use Rattle.policy.specs.OwnKey.{declares, definition_of};
ghost use Rattle.policy.specs.Table.{entry_at};
ghost use Rattle.policy_table.specs.Entries.{entry_is, entry_place, declared_as, declared_in};

use rows::Polarity;

/// What the table says of a definition: its name, its polarity's word, and where its words stand in the policy.
#[derive(Clone, Copy, Debug, PartialEq, Eq)]
pub struct Entry {
    pub name: u32,
    pub polarity: u32,
    pub offset: usize,
    pub size: usize,
}

impl Entry {
    // The entry whose first word stands at `at`.
    #[tactic(auto, unfolding(policy::specs::Table::entry_at))]
    pub fn at(policy: &[u32], at: usize) -> Entry
        requires { at + 4 ≤ length policy.now }
        ensures { entry_is result ≡ entry_at policy.now at }
    {
        Entry {
            name: policy[at],
            polarity: policy[at + 1],
            offset: policy[at + 2] as usize,
            size: policy[at + 3] as usize,
        }
    }
}

// Has the entry whose first word stands at `at` this name and polarity? Most entries are passed at their name, so no more of them is read.
#[tactic(auto, unfolding(policy::specs::OwnKey::declares, policy::specs::Table::entry_at))]
fn declares(policy: &[u32], at: usize, name: u32, polarity: Polarity) -> bool
    requires { at + 4 ≤ length policy.now }
    ensures { result ≡ declares (declared_as (entry_at policy.now at)) name (polarity_is polarity) }
{
    policy[at] == name && polarity_of(policy[at + 1]) == polarity
}

// Where entry `i` begins: name, polarity, offset, length.
pub fn entry_place(i: usize) -> usize
    requires { i ≤ 16 }
    ensures { result ≡ entry_place i }
{
    2 + 4 * i
}

// The polarity that a word stands for.
#[tactic(auto, unfolding(rows::specs::Name::polarity_of))]
pub fn polarity_of(word: u32) -> Polarity
    ensures { polarity_is result ≡ polarity_of word }
{
    match word {
        0 => Polarity::Plus,
        _ => Polarity::Minus,
    }
}

/// The number of the definition of this name and polarity among the first `known`.
pub fn find_definition(policy: &[u32], known: usize, name: u32, polarity: Polarity) -> Option<usize>
    requires { entry_place known ≤ length policy.now }
    ensures { let d = definition_of (declared_in policy.now known) name (polarity_is polarity) in
        MatchOption result (d ≡ known) (λ i. (i < known) × (d ≡ i)) }
{
    for i in 0..known {
        if declares(policy, 2 + 4 * i, name, polarity) {
            return Some(i);
        }
    }
    None
}
