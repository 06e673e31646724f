// The lines by which a program keeps its store and its links. How words are written is said in `lib.rt`.
//
//     file WORDS                   files certificates, ten words each, and prints nothing
//     store WORDS                  writes the words over the first of the store; `store 0` makes it empty
//     link WORDS                   files links, five words each, and prints nothing
//     links WORDS                  writes the words over the first of the link store; `links 0` makes it empty
ghost use Rattle.std.specs.Prelude.{◌<◌};

use crate::text::Text;
use store::{Certificates, Kind, Links, file_record};

// Files the words that stand here, a record at a time; words that are left over are not filed. It reads them into the room, as far as it goes.
fn file_all<K: Kind>(store: &mut [u32], mut text: Text<'_>, room: &mut [u32])
    requires { 0 < K.WORDS }
{
    let count = text.words_over(room);
    for record in room[..count].chunks_exact(K::WORDS) {
        file_record::<K>(store, record);
    }
}

/// Does what a line of these says; of any other it says no.
pub fn keep(mut text: Text<'_>, store: &mut [u32], links: &mut [u32]) -> bool {
    if text.passes(b"file ") {
        file_all::<Certificates>(store, text, &mut [0; 16000]);
    } else if text.passes(b"store ") {
        text.words_over(store);
    } else if text.passes(b"link ") {
        file_all::<Links>(links, text, &mut [0; 1280]);
    } else if text.passes(b"links ") {
        text.words_over(links);
    } else {
        return false;
    }
    true
}
