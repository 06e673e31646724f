// The names that links reach from a name: the rows of all of them, joined, or one row looked up among them.
ghost use Rattle.std.specs.Prelude.{◌+◌, ◌*◌, ◌≤◌, ◌<◌, ◌≡◌, MatchResult, true, length};
ghost use Rattle.rows.specs.Ordered.{◌∈◌};
ghost use Rattle.rows.specs.Sets.{only};
ghost use Rattle.rows.specs.Layout.{set_room, formed};
ghost use Rattle.rows.specs.Polarities.{polarity_number};
ghost use Rattle.row_words.specs.Values.{row_is};
ghost use Rattle.certificates.specs.Certificate.{record_row, sound_record};
ghost use Rattle.read_values.specs.Answers.{Filled, Empty};
ghost use Rattle.read_links.specs.Reached.{names_in, SayReached};
ghost use Rattle.read_held.specs.Held.{Records, rows_held};
ghost use Rattle.read_names.specs.Reached.{HeldFor, Joined, NotJoined, SayLooking, Listed, Belongs, Large};
ghost use Rattle.read_names.specs.Names.{rows_for};

use crate::{Held, Name};
use certificates::ROW_IN_RECORD;
use read_held::{Record, holds, is_row_held, row_from};
use read_links::{Found, reach};
use refusals::Refusal;
use row_words::row::Row;
use rows::{Form, MOST_ROWS};
use sets::{clear, insert};

// Has a set list the row of a record too: refused if it is full.
fn join_row(held: &Record, area: &mut [u32]) -> Result<(), Refusal>
    requires { (sound_record held.now ≡ true) × Filled area.old }
    ensures { MatchResult result (λ done. Joined (λ x. x ≡ record_row held.now) area.old area.new) (λ refusal. NotJoined (λ x. x ≡ record_row held.now) area.old refusal) }
{
    let row = Row::at(held, ROW_IN_RECORD);
    insert(area, row)?;
    Ok(())
}

// Has a set list the rows of these records that hold: refused if they and its own are too many.
fn join_rows(records: &[Record], minute: u32, area: &mut [u32]) -> Result<(), Refusal>
    requires { Records records.now × Filled area.old }
    ensures { MatchResult result (λ done. Joined (λ x. x ∈ rows_held minute records.now) area.old area.new) (λ refusal. NotJoined (λ x. x ∈ rows_held minute records.now) area.old refusal) }
{
    for held in records {
        if holds(held, minute) {
            join_row(held, area)?;
        }
    }
    Ok(())
}

// How many records there are, and whether one of the row holds. Neither says whether the other counts: a sum and a test, made in one pass.
#[derive(Clone, Copy)]
struct Looking {
    records: usize,
    held: bool,
}

impl Held<'_> {
    // Has a set list the rows of all the names that were found from this one.
    fn join_names(&self, name: Name, found: &Found, area: &mut [u32]) -> Result<(), Refusal>
        requires { SayReached self.now.links.now name found.now.names found.now.count × Filled area.old }
        ensures { MatchResult result (λ done. Joined (HeldFor self.now.minute self.now.store.now (polarity_number name.polarity) (names_in found.now.count found.now.names)) area.old area.new)
            (λ refusal. NotJoined (HeldFor self.now.minute self.now.store.now (polarity_number name.polarity) (names_in found.now.count found.now.names)) area.old refusal) }
    {
        for reached in found.names() {
            join_rows(self.records_of(*reached), self.minute, area)?;
        }
        Ok(())
    }

    // Looks for a row among the records of all these names.
    fn look_in(&self, name: Name, found: &Found, row: &Row) -> Looking
        requires { SayReached self.now.links.now name found.now.names found.now.count × (row.now.width ≤ 4) }
        ensures { SayLooking self.now.minute self.now.store.now (polarity_number name.polarity) (names_in found.now.count found.now.names) (row_is row.now) result }
    {
        let mut total: usize = 0;
        let mut held = false;
        for reached in found.names() {
            let records = self.records_of(*reached);
            total += records.len();
            if is_row_held(records, self.minute, row) {
                held = true;
            }
        }
        Looking {
            records: total,
            held,
        }
    }

    // Has an empty set list the rows of every name that links reach from this one: refused if they are too many.
    pub fn list_reached(&self, name: Name, area: &mut [u32]) -> Result<(), Refusal>
        requires { Empty (polarity_number name.polarity) area.old }
        ensures { MatchResult result (λ done. Listed (formed (polarity_number name.polarity) (rows_for self.now name)) area.new)
            (λ refusal. Large (formed (polarity_number name.polarity) (rows_for self.now name)) refusal) }
    {
        let mut found = Found::none();
        reach(self.links, name, &mut found);
        self.join_names(name, &found, area)
    }

    // Looks for a row among those of every name that links reach from this one. They are joined only where there are more records than rows in a set.
    pub fn look_row_reached(&self, name: Name, row: &Row, area: &mut [u32]) -> Result<bool, Refusal>
        requires { (row.now.width ≤ 4) × (set_room ≤ length area.old) }
        ensures { MatchResult result (λ listed. Belongs (only (rows_for self.now name)) (row_is row.now) listed) (λ refusal. Large (only (rows_for self.now name)) refusal) }
    {
        let mut found = Found::none();
        reach(self.links, name, &mut found);
        let looking = self.look_in(name, &found, row);
        if MOST_ROWS < looking.records {
            clear(area, Form::Finite);
            self.join_names(name, &found, area)?;
        }
        Ok(looking.held)
    }

    // Looks for the row of these atoms, however many they are. Where they are more than a row has, no name has such a row, but the name's rows may still be too
    // many.
    pub fn look_reached(&self, name: Name, row: &[u32], area: &mut [u32]) -> Result<bool, Refusal>
        requires { set_room ≤ length area.old }
        ensures { MatchResult result (λ listed. Belongs (only (rows_for self.now name)) row.now listed) (λ refusal. Large (only (rows_for self.now name)) refusal) }
    {
        match row_from(row) {
            Some(row) => self.look_row_reached(name, &row, area),
            None => {
                let any = Row {
                    width: 0,
                    atoms: [0; 4],
                };
                self.look_row_reached(name, &any, area)?;
                Ok(false)
            }
        }
    }
}
