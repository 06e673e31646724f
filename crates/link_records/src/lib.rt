// The link store's words, a count and then the links in order: tested and searched.
#![tactic(auto)]

ghost use Rattle.std.specs.Prelude.{◌+◌, ◌*◌, ◌≤◌, ◌≡◌, true, length};
ghost use Rattle.rows.specs.Ordered.{words_before};
ghost use Rattle.rows.specs.Records.{behind_at, place_in, held_at};
ghost use Rattle.certificates.specs.Link.{link_words, sound_link, link_records, sound_links};

use certificates::{LINK_WORDS, LINKS_WORDS, MOST_LINKS};
use records::{count_before, record_at};
use rows::{FIRST_KEY, LAST_NAME};

/// Five words: both keys are keys, both names and the polarity are in range.
#[tactic(auto, unfolding(certificates::specs::Link::sound_link))]
pub fn sound_link(words: &[u32]) -> bool
    ensures { result ≡ sound_link words.now }
{
    words.len() == LINK_WORDS
        && FIRST_KEY <= words[0]
        && words[1] <= LAST_NAME
        && words[2] <= 1
        && FIRST_KEY <= words[3]
        && words[4] <= LAST_NAME
}

// Does `a` come before `b`, word by word? A loop: the slices' own `<` takes more than twice as long.
#[tactic(auto, unfolding(rows::specs::Ordered::words_before))]
fn link_before(a: &[u32], b: &[u32]) -> bool
    requires { (length a.now ≡ link_words) × (length b.now ≡ link_words) }
    ensures { result ≡ words_before a.now b.now }
{
    for j in 0..LINK_WORDS {
        if a[j] != b[j] {
            return a[j] < b[j];
        }
    }
    false
}

// Does link `i` come behind the one before, if there is one?
fn behind(links: &[u32], i: usize) -> bool
    requires { 1 + link_words * (i + 1) ≤ length links.now }
    ensures { result ≡ behind_at link_words words_before links.now i }
{
    i == 0
        || link_before(
            record_at(links, LINK_WORDS, i - 1),
            record_at(links, LINK_WORDS, i),
        )
}

/// Is the store long enough, its count in range, and each link sound and in order?
pub fn sound_links(links: &[u32]) -> bool
    ensures { result ≡ sound_links links.now }
{
    if links.len() < LINKS_WORDS || MOST_LINKS < links[0] {
        return false;
    }
    for i in 0..links[0] as usize {
        if !sound_link(record_at(links, LINK_WORDS, i)) || !behind(links, i) {
            return false;
        }
    }
    true
}

/// How many links of a sound store come before this one: its place among them.
pub fn link_place(links: &[u32], link: &[u32]) -> usize
    requires { (sound_links links.now ≡ true) × (sound_link link.now ≡ true) }
    ensures { result ≡ place_in words_before (link_records links.now) link.now }
{
    count_before(links, LINK_WORDS, link, false)
}

/// Is the link the one at its place?
pub fn link_held(links: &[u32], place: usize, link: &[u32]) -> bool
    requires { (sound_links links.now ≡ true) × (sound_link link.now ≡ true) }
    ensures { result ≡ held_at link_words words_before links.now place link.now }
{
    place < links[0] as usize && !link_before(link, record_at(links, LINK_WORDS, place))
}
