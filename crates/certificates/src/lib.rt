// Certificates, links, their stores and filing: no code, the definitions are in `specs/` and what is shown of them in `proofs/`.
#![tactic(auto)]

// What the code goes by:

// key, name, polarity, the row's width and four atoms, the first and the end minute
pub const RECORD_WORDS: usize = 10;

pub const ROW_IN_RECORD: usize = 3;

pub const TERM_IN_RECORD: usize = 8;

// "A store holds at most 1,600 records"
pub const CAPACITY: u32 = 1600;

// the count and room for every record
pub const STORE_WORDS: usize = 1 + RECORD_WORDS * CAPACITY as usize;

// key, name, polarity, the other key and the other name
pub const LINK_WORDS: usize = 5;

// "at most 256 links"
pub const MOST_LINKS: u32 = 256;

// the count and room for every link
pub const LINKS_WORDS: usize = 1 + LINK_WORDS * MOST_LINKS as usize;
