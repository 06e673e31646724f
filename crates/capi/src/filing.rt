// Certificates and links filed, and the certificates of one name found.
ghost use Rattle.std.specs.Prelude.{◌≡◌};
ghost use Rattle.certificates.specs.Filing.{file_reply, store_after};
ghost use Rattle.certificates.specs.Store.{certificate_kind};
ghost use Rattle.certificates.specs.Link.{link_kind};
ghost use Rattle.store.specs.Reply.{filing_is};
ghost use Rattle.capi.specs.Replies.{filing_word};
ghost use Rattle.capi.specs.Spans.{CertificatesAt};

use store::{Filing, file, file_link, span_of};

// 0 Filed, 1 Held, else the refusal's number.
fn filing_word(reply: Filing) -> u32
    ensures { result ≡ filing_word (filing_is reply) }
{
    match reply {
        Filing::Filed => 0,
        Filing::Held => 1,
        Filing::Refused(refusal) => u32::from(refusal),
    }
}

// Files a certificate.
#[unsafe(no_mangle)]
pub extern "C" fn txb_file(store: &mut [u32], certificate: &[u32]) -> u32
    ensures answer { result ≡ filing_word (file_reply certificate_kind store.old certificate.now) }
    ensures store_after { store.new ≡ store_after certificate_kind store.old certificate.now }
{
    filing_word(file(store, certificate))
}

// Files a link.
#[unsafe(no_mangle)]
pub extern "C" fn txb_file_link(links: &mut [u32], link: &[u32]) -> u32
    ensures answer { result ≡ filing_word (file_reply link_kind links.old link.now) }
    ensures links_after { links.new ≡ store_after link_kind links.old link.now }
{
    filing_word(file_link(links, link))
}

// Where the certificates of one name stand in the store: how many words they take, and the word where they start.
#[unsafe(no_mangle)]
pub extern "C" fn txb_certificates_of(
    store: &[u32],
    key: u32,
    name: u32,
    polarity: u32,
    start: &mut usize,
) -> usize
    ensures { CertificatesAt store.now key name polarity (record { size = result; start = start.new }) }
{
    let span = span_of(store, key, name, polarity);
    *start = span.from;
    span.to - span.from
}
