// What is held, and when it is asked.
ghost use Rattle.std.specs.Prelude.{◌≡◌, true};
ghost use Rattle.certificates.specs.Store.{sound_store};
ghost use Rattle.certificates.specs.Link.{sound_links};

/// The certificates and the links that are held, and the minute at which a certificate has to hold.
#[derive(Clone, Copy)]
pub struct Held<'a> {
    pub store: &'a [u32],
    pub links: &'a [u32],
    pub minute: u32,
    ghost sound: { sound_store store.now ≡ true },
    ghost linked: { sound_links links.now ≡ true },
}

impl<'a> Held<'a> {
    pub fn new(store: &'a [u32], links: &'a [u32], minute: u32) -> Held<'a>
        requires sound { sound_store store.now ≡ true }
        requires linked { sound_links links.now ≡ true }
        ensures store { result.store ≡ store.entry }
        ensures links { result.links ≡ links.entry }
        ensures minute { result.minute ≡ minute }
    {
        Held {
            store,
            links,
            minute,
        }
    }
}
