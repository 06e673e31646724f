// The search along links: each name found is followed once.
ghost use Rattle.std.specs.Prelude.{◌+◌, ◌≤◌, ◌<◌, ◌≡◌, ◌==◌, ◌&&◌, true, length, take, get_or};
ghost use Rattle.std.specs.List.{list_any};
ghost use Rattle.certificates.specs.Link.{sound_links};
ghost use Rattle.read_links.specs.Reached.{RoomFor, Search, Added, SayFollowed, SayReached, named_by, nobody};

use crate::{Name, first_from, is_from};
use certificates::LINK_WORDS;
use rows::Polarity;

// Room for the name that the search starts from, and for the second of each link.
const MOST_FOUND: usize = 257;

/// The names found, each once.
// Lent to the search: by value three thousand bytes would be copied at each, by a `memcpy` that the archive for C would need beside it.
#[derive(Clone, Copy)]
pub struct Found {
    names: [Name; MOST_FOUND],
    count: usize,
    ghost few: { count ≤ 257 },
}

impl Found {
    /// None found yet.
    pub fn none() -> Found
        ensures { result.count ≡ 0 }
    {
        // All zeros, which is quicker to fill in than any other name.
        let nobody = Name {
            key: 0,
            number: 0,
            polarity: Polarity::Plus,
        };
        Found {
            names: [nobody; MOST_FOUND],
            count: 0,
        }
    }

    /// The names, the one that the search started from first.
    pub fn names(&self) -> &[Name]
        ensures names { result.now ≡ take self.now.count self.now.names }
        ensures count { length result.now ≡ self.now.count }
    {
        &self.names[..self.count]
    }

    // Is there a name of this key and this number? All are of one polarity.
    fn contains(&self, name: Name) -> bool
        ensures { result ≡ list_any (λ y. (y.key == name.key) && (y.number == name.number)) (take self.now.count self.now.names) }
    {
        self.names().iter().any(|found| found.key == name.key && found.number == name.number)
    }

    // Adds a name, unless it is there.
    fn add(&mut self, name: Name)
        requires { RoomFor (named_by name) self.old.names self.old.count }
        ensures { Added name self.old.names self.old.count self.new.names self.new.count }
    {
        if self.contains(name) {
            return;
        }
        self.names[self.count] = name;
        self.count += 1;
    }

    // Adds the names that links lead to from the one found as number `next`.
    fn follow(&mut self, links: &[u32], next: usize)
        requires { (sound_links links.now ≡ true) × (next < self.old.count) × Search links.now (get_or self.old.names next nobody).polarity self.old.names self.old.count }
        ensures { SayFollowed links.now (get_or self.old.names next nobody).polarity self.old.names self.old.count next self.new.names self.new.count }
    {
        let name = self.names[next];
        for i in first_from(links, name)..links[0] as usize {
            if !is_from(links, i, name) {
                return;
            }
            let at = 1 + LINK_WORDS * i;
            self.add(Name {
                key: links[at + 3],
                number: links[at + 4],
                polarity: name.polarity,
            });
        }
    }
}

/// Finds the names that links of its polarity reach from a name, whatever was found before. Each is followed once.
pub fn reach(links: &[u32], name: Name, found: &mut Found)
    requires { sound_links links.now ≡ true }
    ensures { SayReached links.now name found.new.names found.new.count }
{
    found.names[0] = name;
    found.count = 1;
    let mut next: usize = 0;
    // The list grows while it is walked, so that no iterator goes over it.
    while next < found.count {
        found.follow(links, next);
        next += 1;
    }
}
