// The expressions that hold no other, read: the rows of a literal, an earlier definition, a name, a name whose issuer is looked up. A name under our own key
// is the definition that it stands for. The readers of expressions call one function for all of them.
#![tactic(auto)]

ghost use Rattle.std.specs.Prelude.{◌+◌, ◌≤◌, ◌<◌, ◌≡◌, true, length, get_or, take};
ghost use Rattle.rows.specs.Polarities.{form_number};
ghost use Rattle.rows.specs.Layout.{set_room};
ghost use Rattle.read_values.specs.Values.{Bound};
ghost use Rattle.policy_places.specs.Places.{SomeName, SomeRow, SomeRows};
ghost use Rattle.certificates.specs.Store.{sound_store};
ghost use Rattle.certificates.specs.Link.{sound_links};
ghost use Rattle.read_values.specs.From.{from, names, FilledSets};
ghost use Rattle.read_leaves.specs.Leaves.{held_by, SayRows, SayDefinition, SayAmong, SayOwn, AskOwn, SayOwnSet, SayCertified, SayCertifiedHas, AskName, SayListed, SayListedHas, AskLeaf, SayLeaf, SayLeafHas};

use policy::codes::{Code, Tag};
use policy_places::skip::skip_row;
use policy_places::term_at;
use policy_table::{find_definition, polarity_of};
use read_names::{Held, name_at};
use read_steps::has_row;
use read_values::{Bindings, Lent};
use refusals::Refusal;
use row_words::row::Row;
use rows::{Form, SET_ROOM};
use sets::{clear, copy, has, insert};

// The rows written there, in a set of this form: no more than a set lists, so there is room for each.
fn read_rows(lent: &Lent<'_>, at: usize, bindings: &Bindings, area: &mut [u32], form: Form)
    requires { Bound bindings.now.values bindings.now.count × (set_room ≤ length area.old) × SomeRows lent.now.words.now at }
    ensures { SayRows lent.now.words.now at (form_number form) (take bindings.now.count bindings.now.values) area.new }
{
    clear(area, form);
    let mut next = at + 1;
    for _ in 0..lent.words[at] {
        let row = lent.row_of(next, bindings);
        // there is room for each
        let _ = insert(area, row);
        next = skip_row(lent.words, next);
    }
}

// The words from the set that was read for a definition on.
fn definition_set<'a>(lent: &Lent<'a>, d: usize) -> &'a [u32]
    requires { (d < lent.now.known) × FilledSets lent.now.known lent.now.definitions.now }
    ensures { SayDefinition lent.now.known d lent.now.definitions.now result.now }
{
    &lent.definitions[SET_ROOM * d..]
}

// Is the issuer of the name at `at` our own key, written there? (A variable that holds it is another matter.)
fn is_own(lent: &Lent<'_>, at: usize) -> bool
    requires { SomeName lent.now.words.now at }
    ensures { SayOwn lent.now.our_key lent.now.words.now at result }
{
    if lent.words[at] != Tag::Atom as u32 {
        return false;
    }
    lent.words[at + 1] == lent.our_key
}

// The words from the set on that was read for the definition that our own name at `at` stands for.
fn own_set<'a>(lent: &Lent<'a>, at: usize) -> &'a [u32]
    requires { AskOwn lent.now.our_key lent.now.known lent.now.policy.now lent.now.words.now at × FilledSets lent.now.known lent.now.definitions.now }
    ensures { SayOwnSet lent.now.known lent.now.policy.now lent.now.definitions.now lent.now.words.now at result.now }
{
    let name = lent.words[at + 2];
    let polarity = polarity_of(lent.words[at + 3]);
    match find_definition(lent.policy, lent.known, name, polarity) {
        Some(d) => definition_set(lent, d),
        None => unreachable!(),
    }
}

// The certificates and the links that are lent, asked at the minute.
fn held<'a>(lent: &Lent<'a>) -> Held<'a>
    requires sound { sound_store lent.now.store.now ≡ true }
    requires linked { sound_links lent.now.links.now ≡ true }
    ensures { held_by result ≡ names (from lent.now) }
{
    Held::new(lent.store, lent.links, lent.minute)
}

// The certified rows of the name at `at`.
fn read_certified(
    lent: &Lent<'_>,
    at: usize,
    bindings: &Bindings,
    draws: u32,
    area: &mut [u32],
) -> Result<u32, Refusal>
    requires { Bound bindings.now.values bindings.now.count × SomeName lent.now.words.now at × (sound_store lent.now.store.now ≡ true) × (sound_links lent.now.links.now ≡ true) × (set_room ≤ length area.old) }
    ensures { SayCertified (names (from lent.now)) lent.now.words.now at (take bindings.now.count bindings.now.values) draws result area.new }
{
    let name = name_at(lent.words, at, &bindings.values, bindings.count);
    held(lent).list(name, area)?;
    Ok(draws)
}

// Whether the row written at `row` is among them.
fn certified_has(
    lent: &Lent<'_>,
    at: usize,
    row: usize,
    bindings: &Bindings,
    draws: u32,
    area: &mut [u32],
) -> Result<(bool, u32), Refusal>
    requires { Bound bindings.now.values bindings.now.count × SomeName lent.now.words.now at × SomeRow lent.now.words.now row × (sound_store lent.now.store.now ≡ true) × (sound_links lent.now.links.now ≡ true) × (set_room ≤ length area.old) }
    ensures { SayCertifiedHas (names (from lent.now)) lent.now.words.now at row (take bindings.now.count bindings.now.values) draws result }
{
    let name = name_at(lent.words, at, &bindings.values, bindings.count);
    let sought = lent.row_of(row, bindings);
    let listed = held(lent).has(name, sought, area)?;
    Ok((listed, draws))
}

// A name: its certified rows, or under our own key those of the definition that it stands for.
fn read_listed(
    lent: &Lent<'_>,
    at: usize,
    bindings: &Bindings,
    draws: u32,
    area: &mut [u32],
) -> Result<u32, Refusal>
    requires { AskName (from lent.now) lent.now.words.now at bindings.now.values bindings.now.count × (set_room ≤ length area.old) }
    ensures { SayListed (from lent.now) lent.now.words.now at (take bindings.now.count bindings.now.values) draws result area.new }
{
    if is_own(lent, at) {
        copy(own_set(lent, at), area);
        return Ok(draws);
    }
    read_certified(lent, at, bindings, draws, area)
}

// Whether the row written at `row` belongs to the name. A definition's rows are not copied for it, so this is no look into the set that `read_listed` leaves:
// of each pair here one copies a set, and the other looks where the set stands.
fn listed_has(
    lent: &Lent<'_>,
    at: usize,
    row: usize,
    bindings: &Bindings,
    draws: u32,
    area: &mut [u32],
) -> Result<(bool, u32), Refusal>
    requires { AskName (from lent.now) lent.now.words.now at bindings.now.values bindings.now.count × (set_room ≤ length area.old) × SomeRow lent.now.words.now row }
    ensures { SayListedHas (from lent.now) lent.now.words.now at row (take bindings.now.count bindings.now.values) draws result }
{
    if is_own(lent, at) {
        let own = own_set(lent, at);
        return Ok((has_row(lent, row, bindings, own), draws));
    }
    certified_has(lent, at, row, bindings, draws, area)
}

// Whether the one-atom row of code 8's issuer belongs to the definition that the code names.
fn issuer_among(lent: &Lent<'_>, at: usize, bindings: &Bindings) -> bool
    requires { Bound bindings.now.values bindings.now.count × (at + 6 ≤ length lent.now.words.now) × (get_or lent.now.words.now (at + 5) 0 < lent.now.known) × FilledSets lent.now.known lent.now.definitions.now }
    ensures { SayAmong lent.now.known lent.now.definitions.now lent.now.words.now at (take bindings.now.count bindings.now.values) result }
{
    let key = bindings.value_of(term_at(lent.words, at + 1));
    let set = definition_set(lent, lent.words[at + 5] as usize);
    let row = Row {
        width: 1,
        atoms: [key, 0, 0, 0],
    };
    has(set, row)
}

// Code 8: the name, if its issuer is absent from the definition, and no rows otherwise; the name is not read then.
fn read_vetted(
    lent: &Lent<'_>,
    at: usize,
    bindings: &Bindings,
    draws: u32,
    area: &mut [u32],
) -> Result<u32, Refusal>
    requires { AskLeaf (from lent.now) lent.now.words.now at bindings.now.values bindings.now.count × (set_room ≤ length area.old) × (get_or lent.now.words.now at 0 ≡ 8) }
    ensures { SayLeaf (from lent.now) lent.now.words.now at (take bindings.now.count bindings.now.values) draws result area.new }
{
    if issuer_among(lent, at, bindings) {
        clear(area, Form::Finite);
        Ok(draws)
    } else {
        read_listed(lent, at + 1, bindings, draws, area)
    }
}

// Whether the row written at `row` belongs to code 8.
fn vetted_has(
    lent: &Lent<'_>,
    at: usize,
    row: usize,
    bindings: &Bindings,
    draws: u32,
    area: &mut [u32],
) -> Result<(bool, u32), Refusal>
    requires { AskLeaf (from lent.now) lent.now.words.now at bindings.now.values bindings.now.count × (set_room ≤ length area.old) × SomeRow lent.now.words.now row × (get_or lent.now.words.now at 0 ≡ 8) }
    ensures { SayLeafHas (from lent.now) lent.now.words.now at row (take bindings.now.count bindings.now.values) draws result }
{
    if issuer_among(lent, at, bindings) {
        return Ok((false, draws));
    }
    listed_has(lent, at + 1, row, bindings, draws, area)
}

// A leaf, by its code.
pub fn read_leaf(
    lent: &Lent<'_>,
    at: usize,
    bindings: &Bindings,
    draws: u32,
    area: &mut [u32],
) -> Result<u32, Refusal>
    requires { AskLeaf (from lent.now) lent.now.words.now at bindings.now.values bindings.now.count × (set_room ≤ length area.old) }
    ensures { SayLeaf (from lent.now) lent.now.words.now at (take bindings.now.count bindings.now.values) draws result area.new }
{
    match Code::of(lent.words[at]) {
        Code::Name => read_listed(lent, at + 1, bindings, draws, area),
        Code::Definition => {
            copy(definition_set(lent, lent.words[at + 1] as usize), area);
            Ok(draws)
        }
        Code::Vetted => read_vetted(lent, at, bindings, draws, area),
        Code::Finite => {
            read_rows(lent, at + 1, bindings, area, Form::Finite);
            Ok(draws)
        }
        _ => {
            // of the leaves only a complement is left
            read_rows(lent, at + 1, bindings, area, Form::Complement);
            Ok(draws)
        }
    }
}

// Whether the row written at `row` belongs to the leaf. A definition's rows are not copied for it, and a name's hardly ever.
pub fn leaf_has(
    lent: &Lent<'_>,
    at: usize,
    row: usize,
    bindings: &Bindings,
    draws: u32,
    area: &mut [u32],
) -> Result<(bool, u32), Refusal>
    requires { AskLeaf (from lent.now) lent.now.words.now at bindings.now.values bindings.now.count × (set_room ≤ length area.old) × SomeRow lent.now.words.now row }
    ensures { SayLeafHas (from lent.now) lent.now.words.now at row (take bindings.now.count bindings.now.values) draws result }
{
    match Code::of(lent.words[at]) {
        Code::Name => listed_has(lent, at + 1, row, bindings, draws, area),
        Code::Definition => {
            let set = definition_set(lent, lent.words[at + 1] as usize);
            Ok((has_row(lent, row, bindings, set), draws))
        }
        Code::Vetted => vetted_has(lent, at, row, bindings, draws, area),
        _ => {
            let used = read_leaf(lent, at, bindings, draws, area)?;
            Ok((has_row(lent, row, bindings, area), used))
        }
    }
}
