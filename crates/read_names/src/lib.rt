// Reading a name: the rows that are certified at a minute for it and for the names that links reach from it, listed or looked up.
#![tactic(auto)]

mod held;
mod reached;
#[cfg(test)]
mod tests;

ghost use Rattle.std.specs.Prelude.{◌≤◌, ◌≡◌, MatchResult, length, take};
ghost use Rattle.rows.specs.Sets.{only};
ghost use Rattle.rows.specs.Layout.{set_room};
ghost use Rattle.rows.specs.Polarities.{polarity_number};
ghost use Rattle.row_words.specs.Values.{row_is};
ghost use Rattle.read_values.specs.Values.{Bound};
ghost use Rattle.policy_places.specs.Places.{SomeName};
ghost use Rattle.read_held.specs.Held.{Records};
ghost use Rattle.read_names.specs.Reached.{records_of, Listed, Belongs, Large};
ghost use Rattle.read_names.specs.Names.{name_set, rows_for, named_by, StandsFor, SayBelongs};

pub use crate::held::Held;
use certificates::RECORD_WORDS;
use policy_places::term_at;
use read_held::{Record, are_too_many, copy_rows, is_row_held};
pub use read_links::Name;
use read_links::is_linked;
use read_values::value_of;
use refusals::Refusal;
use row_words::row::Row;
use rows::{FIRST_KEY, Polarity};
use sets::clear;
use store::certificates_in;

impl<'a> Held<'a> {
    // The name's own records.
    fn records_of(&self, name: Name) -> &'a [Record]
        ensures records { result.now ≡ records_of self.now.store.now (polarity_number name.polarity) (named_by name) }
        ensures sound { Records result.now }
    {
        let words = certificates_in(self.store, name.key, name.number, u32::from(name.polarity));
        let (records, _) = words.as_chunks::<RECORD_WORDS>();
        records
    }

    /// Lists the rows of a name in the area's first set: + those that it has, − those that it has not. A number issues nothing.
    pub fn list(&self, name: Name, area: &mut [u32]) -> Result<(), Refusal>
        requires { set_room ≤ length area.old }
        ensures { MatchResult result (λ done. Listed (name_set self.now name) area.new) (λ refusal. Large (name_set self.now name) refusal) }
    {
        clear(area, name.polarity.into());
        if name.key < FIRST_KEY {
            return Ok(());
        }
        if is_linked(self.links, name) {
            return self.list_reached(name, area);
        }
        copy_rows(self.records_of(name), self.minute, area)
    }

    /// Whether a row belongs to the name's set: what a look into the set that `list` leaves would find, and refused where that is. The area is written to only
    /// where links start at the name and the records that they reach are more than the rows that a set lists.
    pub fn has(&self, name: Name, row: Row, area: &mut [u32]) -> Result<bool, Refusal>
        requires { (row.width ≤ 4) × (set_room ≤ length area.old) }
        ensures { MatchResult result (λ has. Belongs (name_set self.now name) (row_is row) has) (λ refusal. Large (name_set self.now name) refusal) }
    {
        if name.key < FIRST_KEY {
            return Ok(belongs(name.polarity, false));
        }
        let listed = self.look_up(name, &row, area)?;
        Ok(belongs(name.polarity, listed))
    }

    // Looks for a row among those of a key's name.
    fn look_up(&self, name: Name, row: &Row, area: &mut [u32]) -> Result<bool, Refusal>
        requires { (row.now.width ≤ 4) × (set_room ≤ length area.old) }
        ensures { MatchResult result (λ listed. Belongs (only (rows_for self.now name)) (row_is row.now) listed) (λ refusal. Large (only (rows_for self.now name)) refusal) }
    {
        if is_linked(self.links, name) {
            return self.look_row_reached(name, row, area);
        }
        let records = self.records_of(name);
        if are_too_many(records, self.minute) {
            return Err(Refusal::TooManyRows);
        }
        Ok(is_row_held(records, self.minute, row))
    }
}

// Whether a row belongs to a set of this polarity that lists it or does not.
fn belongs(polarity: Polarity, listed: bool) -> bool
    ensures { SayBelongs (polarity_number polarity) listed result }
{
    match polarity {
        Polarity::Plus => listed,
        Polarity::Minus => !listed,
    }
}

/// The name that stands at a word, its issuer's value in place of the term.
pub fn name_at(words: &[u32], at: usize, values: &[u32; 16], count: usize) -> Name
    requires { Bound values.now count × SomeName words.now at }
    ensures { StandsFor words.now at (take count values.now) result }
{
    let issuer = term_at(words, at);
    let polarity = if words[at + 3] == 0 {
        Polarity::Plus
    } else {
        Polarity::Minus
    };
    Name {
        key: value_of(values, count, issuer),
        number: words[at + 2],
        polarity,
    }
}
