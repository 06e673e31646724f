// The ten words of a certificate.
ghost use Rattle.std.specs.Prelude.{◌≡◌, true, length};
ghost use Rattle.rows.specs.Ordered.{words_before};
ghost use Rattle.certificates.specs.Certificate.{record_words, record_term, sound_certificate, sound_term, sound_record, record_before};

use certificates::{RECORD_WORDS, ROW_IN_RECORD, TERM_IN_RECORD};
use row_words::row::{self, Row};
use rows::{FIRST_KEY, LAST_NAME};
use std::cmp::Ordering;

/// Ten words: the key is one, name and polarity are in range, and the row is sound. Its term is not looked at.
#[tactic(auto, unfolding(certificates::specs::Certificate::sound_certificate))]
pub fn sound_certificate(words: &[u32]) -> bool
    ensures { result ≡ sound_certificate words.now }
{
    words.len() == RECORD_WORDS
        && FIRST_KEY <= words[0]
        && words[1] <= LAST_NAME
        && words[2] <= 1
        && row::sound(words, ROW_IN_RECORD)
}

/// Is the end after the first minute?
#[tactic(auto, unfolding(certificates::specs::Certificate::sound_term))]
pub fn sound_term(words: &[u32]) -> bool
    requires { length words.now ≡ record_words }
    ensures { result ≡ sound_term words.now }
{
    words[TERM_IN_RECORD] < words[TERM_IN_RECORD + 1]
}

/// A record as a store holds it.
#[tactic(auto, unfolding(certificates::specs::Certificate::sound_record), using(certificates::proofs::Sound::sound_ten))]
pub fn sound_record(words: &[u32]) -> bool
    ensures { result ≡ sound_record words.now }
{
    sound_certificate(words) && sound_term(words)
}

/// Does the term of `a` come before that of `b`, by the first minute, then by the end?
#[tactic(auto, using(crate::proofs::Before::first_differ, crate::proofs::Before::first_alike))]
pub fn term_before(a: &[u32], b: &[u32]) -> bool
    requires { (length a.now ≡ record_words) × (length b.now ≡ record_words) }
    ensures { result ≡ words_before (record_term a.now) (record_term b.now) }
{
    let x = a[TERM_IN_RECORD];
    let y = b[TERM_IN_RECORD];
    if x != y {
        return x < y;
    }
    a[TERM_IN_RECORD + 1] < b[TERM_IN_RECORD + 1]
}

/// Does `a` come before `b`? Key, name and polarity nearly always decide it; where these are the same the rows do, and where these are, the terms.
// By steps: as an `Ordering` of slices joined by `then_with`, it makes the test of a store of many names nearly twice as long; and a loop over the names' three
// words is quicker than the slices' own `cmp`.
pub fn record_before(a: &[u32], b: &[u32]) -> bool
    requires { (sound_record a.now ≡ true) × (sound_record b.now ≡ true) }
    ensures { result ≡ record_before a.now b.now }
{
    for j in 0..ROW_IN_RECORD {
        let x = a[j];
        let y = b[j];
        if x != y {
            return x < y;
        }
    }
    match Row::at(a, ROW_IN_RECORD).compare(b, ROW_IN_RECORD) {
        Ordering::Less => true,
        Ordering::Equal => term_before(a, b),
        Ordering::Greater => false,
    }
}
