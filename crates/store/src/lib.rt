// Certificates and links, each with a store of its own: filed, and those of one name found.
#![tactic(auto)]

mod kind;

ghost use Rattle.std.specs.Prelude.{◌-◌, ◌≤◌, ◌≡◌, true, length, take, drop};
ghost use Rattle.certificates.specs.Store.{sound_store, certificate_kind};
ghost use Rattle.certificates.specs.Link.{link_kind};
ghost use Rattle.store.specs.Reply.{filing_is};
ghost use Rattle.certificates.specs.Filing.{file_reply, store_after};
ghost use Rattle.certificates.specs.NamePart.{name_part};
ghost use Rattle.certificates.specs.Spans.{Spans};

use certificates::RECORD_WORDS;
pub use kind::{Certificates, Kind, Links};
pub use link_records::sound_links;
use records::{count_before, insert};
use refusals::Refusal;
pub use store_records::sound_store;

/// What filing a record answers.
#[derive(Clone, Copy, Debug, PartialEq, Eq)]
pub enum Filing {
    /// It is new, and the store has it now.
    Filed,
    /// The store had it before.
    Held,
    Refused(Refusal),
}

/// Files a record of any kind: an unsound store and unsound words are refused, then what is held is, then what finds no room; otherwise it is put in its place.
pub fn file_record<K: Kind>(store: &mut [u32], words: &[u32]) -> Filing
    ensures answer { filing_is result ≡ file_reply K.rules store.old words.now }
    ensures store_after { store.new ≡ store_after K.rules store.old words.now }
{
    if !K::is_sound(store) {
        return Filing::Refused(K::bad_store());
    }
    if let Err(refusal) = K::check(words) {
        return Filing::Refused(refusal);
    }
    let place = K::place(store, words);
    if K::is_held(store, place, words) {
        return Filing::Held;
    }
    if store[0] == K::MOST {
        return Filing::Refused(K::full());
    }
    insert(store, K::WORDS, place, words);
    Filing::Filed
}

/// Files a certificate: 8 for the store, 9 for the certificate, 17 for its term, `Held`, 10.
pub fn file(store: &mut [u32], certificate: &[u32]) -> Filing
    ensures answer { filing_is result ≡ file_reply certificate_kind store.old certificate.now }
    ensures store_after { store.new ≡ store_after certificate_kind store.old certificate.now }
{
    file_record::<Certificates>(store, certificate)
}

/// Files a link: 18 for the link store, 18 for the link, `Held`, 19.
pub fn file_link(links: &mut [u32], link: &[u32]) -> Filing
    ensures answer { filing_is result ≡ file_reply link_kind links.old link.now }
    ensures links_after { links.new ≡ store_after link_kind links.old link.now }
{
    file_record::<Links>(links, link)
}

/// A stretch of the store's words: from the word `from` up to the word `to`.
#[derive(Clone, Copy, Debug, PartialEq, Eq)]
pub struct Span {
    pub from: usize,
    pub to: usize,
}

/// Where the certificates of one name lie in a store that is known to be sound, found without a look at the others.
pub fn span_in(store: &[u32], key: u32, name: u32, polarity: u32) -> Span
    requires { sound_store store.now ≡ true }
    ensures { Spans store.now key name polarity result.from result.to }
{
    let words = [key, name, polarity];
    let from = 1 + RECORD_WORDS * count_before(store, RECORD_WORDS, &words, false);
    let to = 1 + RECORD_WORDS * count_before(store, RECORD_WORDS, &words, true);
    Span { from, to }
}

/// Where the certificates of one name lie in any store: an unsound one has none.
pub fn span_of(store: &[u32], key: u32, name: u32, polarity: u32) -> Span
    ensures { Spans store.now key name polarity result.from result.to }
{
    if !sound_store(store) {
        return Span { from: 0, to: 0 };
    }
    span_in(store, key, name, polarity)
}

/// The certificates of one name in a store that is known to be sound.
pub fn certificates_in<'a>(store: &'a [u32], key: u32, name: u32, polarity: u32) -> &'a [u32]
    requires { sound_store store.now ≡ true }
    ensures { result.now ≡ name_part store.now key name polarity }
{
    let span = span_in(store, key, name, polarity);
    &store[span.from..span.to]
}

/// The certificates of one name, as the part of the store where they lie: empty if there are none or the store is unsound.
pub fn certificates_of<'a>(store: &'a [u32], key: u32, name: u32, polarity: u32) -> &'a [u32]
    ensures { result.now ≡ name_part store.now key name polarity }
{
    let span = span_of(store, key, name, polarity);
    &store[span.from..span.to]
}
