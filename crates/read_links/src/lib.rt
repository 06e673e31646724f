// The names that links reach from a name, itself included.
#![tactic(auto)]

mod found;

ghost use Rattle.std.specs.Prelude.{◌+◌, ◌*◌, ◌≤◌, ◌<◌, ◌≡◌, [], ◌∷◌, true, length};
ghost use Rattle.rows.specs.Polarities.{polarity_number};
ghost use Rattle.rows.specs.Records.{count_of};
ghost use Rattle.certificates.specs.Link.{sound_links};
ghost use Rattle.read_links.specs.Reached.{FirstFrom, SayFrom, SayLinked};

pub use crate::found::{Found, reach};
use certificates::LINK_WORDS;
use records::count_before;
use rows::Polarity;

/// A key's list: its number among the key's lists, and whether it says which rows it has, or which it has not.
#[derive(Clone, Copy, Debug, PartialEq, Eq)]
pub struct Name {
    pub key: u32,
    pub number: u32,
    pub polarity: Polarity,
}

impl Name {
    // The words that a link from it begins with.
    fn words(&self) -> [u32; 3]
        ensures { result ≡ self.now.key ∷ self.now.number ∷ polarity_number self.now.polarity ∷ [] }
    {
        [self.key, self.number, u32::from(self.polarity)]
    }
}

// Where the links that start at the name begin, or would: they stand side by side.
fn first_from(links: &[u32], name: Name) -> usize
    requires { sound_links links.now ≡ true }
    ensures { FirstFrom links.now name.key name.number (polarity_number name.polarity) result }
{
    count_before(links, LINK_WORDS, &name.words(), false)
}

// Does link `i` start at the name?
fn is_from(links: &[u32], i: usize, name: Name) -> bool
    requires { (sound_links links.now ≡ true) × (i < count_of links.now) }
    ensures { SayFrom links.now name.key name.number (polarity_number name.polarity) i result }
{
    // By steps: the slices' own `==` is a call where the keys are the same.
    let at = 1 + LINK_WORDS * i;
    if links[at] != name.key {
        return false;
    }
    if links[at + 1] != name.number {
        return false;
    }
    links[at + 2] == u32::from(name.polarity)
}

/// Do links of the polarity lead on from the name? Where there are none at all, nothing is searched.
pub fn is_linked(links: &[u32], name: Name) -> bool
    requires { sound_links links.now ≡ true }
    ensures { SayLinked links.now (polarity_number name.polarity) name.key name.number result }
{
    if links[0] == 0 {
        return false;
    }
    let first = first_from(links, name);
    first < links[0] as usize && is_from(links, first, name)
}
