// The calls that take a row as its atoms, on two names with a link from one to the other.
use crate::{Held, Name};
use read_held::{is_held, row_of};
use rows::{FIRST_KEY, Polarity};
use store::{sound_links, sound_store};

#[test]
fn finds_the_row_of_given_atoms(rt: HostRuntime) {
    let key = FIRST_KEY + 1;
    // Of name 7 the row 3 4 from minute 10 up to 20, of name 8 the row 5 from minute 0 up to 15.
    let mut store = [0; 16001];
    store[..21].copy_from_slice(&[
        2, key, 7, 0, 2, 3, 4, 0, 0, 10, 20, key, 8, 0, 1, 5, 0, 0, 0, 0, 15,
    ]);
    let mut links = [0; 1281];
    links[..6].copy_from_slice(&[1, key, 7, 0, key, 8]);
    assert!(rt; sound_store(&store), "the certificates");
    assert!(rt; sound_links(&links), "the links");
    let name = Name {
        key,
        number: 7,
        polarity: Polarity::Plus,
    };

    // At each minute: is the row name 7's own, and does it have it by its link?
    let cases: [(u32, &[u32], bool, bool); 7] = [
        (10, &[3, 4], true, true),
        (9, &[3, 4], false, false),
        (20, &[3, 4], false, false),
        (14, &[5], false, true),
        (15, &[5], false, false),
        (10, &[3], false, false),
        (10, &[3, 4, 0, 0, 0], false, false),
    ];
    for (minute, row, own, linked) in cases {
        let held = Held::new(&store, &links, minute);
        let records = held.records_of(name);
        for record in records {
            assert_eq!(rt; row_of(record), [3, 4].as_slice(), "at {minute}");
        }
        assert_eq!(rt; records.len(), 1, "at {minute}");
        assert_eq!(rt; is_held(records, minute, row), own, "at {minute}");
        assert_eq!(rt;
            held.look_reached(name, row, &mut [0; 642]),
            Ok(linked),
            "at {minute}"
        );
    }
}
