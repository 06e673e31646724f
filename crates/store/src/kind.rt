// The kinds of record that are filed, certificates and links, and what filing goes by at each.
ghost use Rattle.std.specs.Prelude.{◌≡◌, ℕ, true, refl};
ghost use Rattle.rows.specs.Records.{place_in, held_at};
ghost use Rattle.certificates.specs.Filing as filing;
ghost use Rattle.certificates.specs.Filing.{records_of, sound_in};
ghost use Rattle.certificates.specs.Store.{certificate_kind};
ghost use Rattle.certificates.specs.Link.{link_kind};
ghost use Rattle.certificates.proofs.Filings.{Lawful};
ghost use Rattle.certificates.proofs.Sound.{certificate_laws};
ghost use Rattle.certificates.proofs.Links.{link_laws};
ghost use Rattle.refusals.specs.Numbers.{number};
ghost use Rattle.store.specs.Check.{Checked};

use certificates::{CAPACITY, LINK_WORDS, MOST_LINKS, RECORD_WORDS};
use link_records::{link_held, link_place, sound_link, sound_links};
use refusals::Refusal;
use store_records::record::{sound_certificate, sound_term};
use store_records::{is_held, place_of, sound_store};

/// A kind of record, which has a store of its own.
pub trait Kind {
    /// How many words a record has.
    const WORDS: usize;

    /// How many records a store holds at most.
    const MOST: u32;

    ghost WORDS: { ℕ };

    ghost MOST: { ℕ };

    ghost rules: { filing.Kind };

    /// The refusal of an unsound store.
    fn bad_store() -> Refusal
        ensures { number result ≡ rules.bad_store };

    /// The refusal of a new record where a store holds as many as it may.
    fn full() -> Refusal
        ensures { number result ≡ rules.full };

    fn is_sound(store: &[u32]) -> bool
        ensures { result ≡ sound_in rules store.now };

    /// Is this a record as a store holds it? Else it is refused.
    fn check(words: &[u32]) -> Result<(), Refusal>
        ensures { Checked rules words.now result };

    /// How many records of the store come before this one.
    fn place(store: &[u32], words: &[u32]) -> usize
        requires sound_store { sound_in rules store.now ≡ true }
        requires sound_words { rules.sound words.now ≡ true }
        ensures { result ≡ place_in rules.before (records_of rules store.now) words.now };

    /// Is this the record at its place?
    fn is_held(store: &[u32], place: usize, words: &[u32]) -> bool
        requires sound_store { sound_in rules store.now ≡ true }
        requires sound_words { rules.sound words.now ≡ true }
        ensures { result ≡ held_at rules.words rules.before store.now place words.now };

    ghost laws: { Lawful rules };

    ghost words_as_ruled: { WORDS ≡ rules.words };

    ghost most_as_ruled: { MOST ≡ rules.most };
}

pub struct Certificates;

impl Kind for Certificates {
    const WORDS: usize = RECORD_WORDS;

    const MOST: u32 = CAPACITY;

    ghost WORDS = { 10 };

    ghost MOST = { 1600 };

    ghost rules = { certificate_kind };

    ghost laws = { certificate_laws };

    ghost words_as_ruled = { refl };

    ghost most_as_ruled = { refl };

    fn bad_store() -> Refusal {
        Refusal::BadStore
    }

    fn full() -> Refusal {
        Refusal::StoreFull
    }

    fn is_sound(store: &[u32]) -> bool {
        sound_store(store)
    }

    fn check(words: &[u32]) -> Result<(), Refusal> {
        if !sound_certificate(words) {
            return Err(Refusal::BadCertificate);
        }
        if !sound_term(words) {
            return Err(Refusal::BadTerm);
        }
        Ok(())
    }

    fn place(store: &[u32], words: &[u32]) -> usize {
        place_of(store, words)
    }

    fn is_held(store: &[u32], place: usize, words: &[u32]) -> bool {
        is_held(store, place, words)
    }
}

pub struct Links;

impl Kind for Links {
    const WORDS: usize = LINK_WORDS;

    const MOST: u32 = MOST_LINKS;

    ghost WORDS = { 5 };

    ghost MOST = { 256 };

    ghost rules = { link_kind };

    ghost laws = { link_laws };

    ghost words_as_ruled = { refl };

    ghost most_as_ruled = { refl };

    fn bad_store() -> Refusal {
        Refusal::BadLink
    }

    fn full() -> Refusal {
        Refusal::LinksFull
    }

    fn is_sound(store: &[u32]) -> bool {
        sound_links(store)
    }

    fn check(words: &[u32]) -> Result<(), Refusal> {
        if !sound_link(words) {
            return Err(Refusal::BadLink);
        }
        Ok(())
    }

    fn place(store: &[u32], words: &[u32]) -> usize {
        link_place(store, words)
    }

    fn is_held(store: &[u32], place: usize, words: &[u32]) -> bool {
        link_held(store, place, words)
    }
}
