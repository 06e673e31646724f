// The store's words, a count and then the records in order: tested and searched.
#![tactic(auto)]

pub mod record;

ghost use Rattle.std.specs.Prelude.{◌+◌, ◌-◌, ◌*◌, ◌≤◌, ◌<◌, ◌≡◌, true, length};
ghost use Rattle.rows.specs.Records.{record_at, place_in, held_at};
ghost use Rattle.certificates.specs.Certificate.{record_words, sound_record, record_before};
ghost use Rattle.certificates.specs.Store.{records, sound_store};
ghost use Rattle.certificates.specs.Steps.{sound_at, pair_at, ShortRow, Follows, Run};

use crate::record::{record_before, sound_record, sound_term, term_before};
use certificates::{CAPACITY, RECORD_WORDS, ROW_IN_RECORD, STORE_WORDS};
use records::record_at;

const FIRST_ATOM: usize = ROW_IN_RECORD + 1;

// Is record `i` sound, and does it come behind the one before, which is sound?
fn sound_at(store: &[u32], i: usize) -> bool
    requires in_bounds { 1 + record_words * (i + 1) ≤ length store.now }
    requires last_sound { 0 < i → sound_record (record_at record_words store.now (i - 1)) ≡ true }
    ensures { result ≡ sound_at store.now i }
{
    let this = record_at(store, RECORD_WORDS, i);
    sound_record(this) && (i == 0 || record_before(record_at(store, RECORD_WORDS, i - 1), this))
}

// Two words as one number, which one load reads: pairs are equal just if both words are.
fn pair(words: &[u32], at: usize) -> usize
    requires { at + 2 ≤ length words.now }
    ensures { result ≡ pair_at words.now at }
{
    words[at] as usize + words[at + 1] as usize * 4294967296
}

// Is the record of this polarity, with a sound row of one atom or two? The longer rows are left to `sound_at`. Polarity and width are compared as one number.
// By steps: as one expression it makes the test of a store a fifth slower.
fn short_row(words: &[u32], polarity: u32) -> bool
    requires { length words.now ≡ record_words }
    ensures { result ≡ true → ShortRow words.now polarity }
{
    if pair(words, FIRST_ATOM + 2) != 0 {
        return false;
    }
    let one_atom = polarity as usize + 4294967296;
    let kind = pair(words, 2);
    if kind == one_atom {
        return words[FIRST_ATOM + 1] == 0;
    }
    kind == one_atom + 4294967296
}

// Does `b`, with a short row, come behind `a` of the same name: by its first two atoms, or with the same row by its term? An unused second atom is 0, and so
// comes before every other, as the shorter row does. By steps, so that each word is read once.
fn follows(a: &[u32], b: &[u32]) -> bool
    requires { (length a.now ≡ record_words) × (length b.now ≡ record_words) }
    ensures { result ≡ true → Follows a.now b.now }
{
    let x = a[FIRST_ATOM];
    let y = b[FIRST_ATOM];
    if x != y {
        return x < y;
    }
    let u = a[FIRST_ATOM + 1];
    let v = b[FIRST_ATOM + 1];
    if u != v {
        return u < v;
    }
    if a[ROW_IN_RECORD] != b[ROW_IN_RECORD] {
        return false;
    }
    term_before(a, b)
}

// The first record after a sound one that does not follow plainly. One follows plainly that has the same key, name and polarity, a short row and a sound term,
// and comes behind the one before by its first two atoms or by its term. It is sound and in order, so that a record is tested whole only where a run begins.
fn run_end(store: &[u32], count: usize, start: usize) -> usize
    requires { (start < count) × (1 + record_words * count ≤ length store.now) × (sound_record (record_at record_words store.now start) ≡ true) }
    ensures { Run store.now count start result }
{
    let first = record_at(store, RECORD_WORDS, start);
    let owner = pair(first, 0);
    let polarity = first[2];
    let mut i = start + 1;
    // A `while` with a test each: as a `for`, or with the tests in one, the test of a store took half as long again where that was tried. Where the linker puts the
    // code makes as much of a difference.
    while i < count {
        let this = record_at(store, RECORD_WORDS, i);
        if pair(this, 0) != owner {
            return i;
        }
        if !short_row(this, polarity) {
            return i;
        }
        if !sound_term(this) {
            return i;
        }
        if !follows(record_at(store, RECORD_WORDS, i - 1), this) {
            return i;
        }
        i += 1;
    }
    i
}

/// Is the store long enough, its count in range, and each record sound and in order?
pub fn sound_store(store: &[u32]) -> bool
    ensures { result ≡ sound_store store.now }
{
    if store.len() < STORE_WORDS || CAPACITY < store[0] {
        return false;
    }
    let count = store[0] as usize;
    let mut i = 0;
    // The index jumps by a run, which no iterator does.
    while i < count {
        if !sound_at(store, i) {
            return false;
        }
        i = run_end(store, count, i);
    }
    true
}

/// How many records of a sound store come before the certificate: its place among them, by binary search.
// A loop: `partition_point` asks for a test that may always be called, and only sound records are compared.
pub fn place_of(store: &[u32], certificate: &[u32]) -> usize
    requires { (sound_store store.now ≡ true) × (sound_record certificate.now ≡ true) }
    ensures { result ≡ place_in record_before (records store.now) certificate.now }
{
    let mut low: usize = 0;
    let mut high = store[0] as usize;
    while low < high {
        let middle = low + (high - low) / 2;
        if record_before(record_at(store, RECORD_WORDS, middle), certificate) {
            low = middle + 1;
        } else {
            high = middle;
        }
    }
    low
}

/// Is the certificate the record at its place?
pub fn is_held(store: &[u32], place: usize, certificate: &[u32]) -> bool
    requires { (sound_store store.now ≡ true) × (sound_record certificate.now ≡ true) }
    ensures { result ≡ held_at record_words record_before store.now place certificate.now }
{
    place < store[0] as usize && !record_before(certificate, record_at(store, RECORD_WORDS, place))
}
