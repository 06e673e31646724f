// The lines of a text, and the words in their cells.
ghost use Rattle.std.specs.Prelude.{◌<◌, ◌≤◌, ◌≡◌, ◌++◌, drop, length, true, false, IsSome, IsNone};
ghost use Rattle.std.specs.Iterator.{at_most};
ghost use Rattle.cases.specs.Rear.{IsRear};

use rows::FIRST_KEY;

/// A text from some place on.
#[derive(Clone, Copy, Debug)]
pub struct Text<'a> {
    pub(crate) rest: &'a [u8],
}

/// The lines of a text: of each the whole text from its start on. An empty line hides the one after it.
#[derive(Debug, Drop)]
pub struct Lines<'a> {
    rest: &'a [u8],
}

impl<'a> Iterator for Lines<'a> {
    type Item = Text<'a>;

    ghost remaining = { λ lines. at_most (length lines.rest.now) };

    fn next(&mut self) -> Option<Text<'a>> {
        let rest = self.rest;
        let (_, behind) = rest.split_first()?;
        self.rest = match behind.iter().position(|byte| *byte == b'\n') {
            Some(end) => &behind[end + 1..],
            None => &behind[behind.len()..],
        };
        Some(Text { rest })
    }
}

// The digit that a byte is, and 10 for any other byte.
fn digit(byte: u8) -> u32
    ensures { result ≤ 10 }
{
    char::from(byte).to_digit(10).unwrap_or(10)
}

// Does this byte end a cell?
fn ends_cell(byte: u8) -> bool {
    byte == b'|' || byte == b'\n'
}

// The words that were read stand at the front of those that are lent: how many, where the latest group begins among them, and which word of that
// group counts up.
#[derive(Debug, Drop)]
struct Reading<'a> {
    words: &'a mut [u32],
    count: usize,
    group: usize,
    rising: Option<usize>,
    ghost few: { count ≤ length words.now },
    ghost inside: { group ≤ count },
}

impl<'a> Reading<'a> {
    fn new(words: &'a mut [u32]) -> Self
        ensures { length result.words.now ≡ length words.old }
    {
        Reading {
            words,
            count: 0,
            group: 0,
            rising: None,
        }
    }

    fn start_group(&mut self)
        ensures room { length self.new.words.now ≡ length self.old.words.now }
        ensures count { self.new.count ≡ self.old.count }
    {
        self.group = self.count;
        self.rising = None;
    }

    // The word that is put in next is the one of its group that counts up.
    fn raise_next(&mut self)
        ensures room { length self.new.words.now ≡ length self.old.words.now }
        ensures count { self.new.count ≡ self.old.count }
    {
        self.rising = Some(self.count - self.group);
    }

    // Puts a word in so many times, as far as there is room.
    fn put(&mut self, word: u32, times: u32)
        ensures room { length self.new.words.now ≡ length self.old.words.now }
        ensures count { self.old.count ≤ self.new.count }
    {
        let end = self
            .count
            .saturating_add(times as usize)
            .min(self.words.len());
        self.words[self.count..end].fill(word);
        self.count = end;
    }

    // Puts the latest group in until it stands so many times, each time with the word that counts up one higher, as far as there is room.
    fn repeat_group(&mut self, times: u32)
        ensures room { length self.new.words.now ≡ length self.old.words.now }
        ensures count { self.old.count ≤ self.new.count }
    {
        let (group, end) = (self.group, self.count);
        for higher in 1..times {
            if self.count == self.words.len() {
                break;
            }
            for i in group..end {
                let word = self.words[i];
                let word = if self.rising == Some(i - group) {
                    word.wrapping_add(higher)
                } else {
                    word
                };
                self.put(word, 1);
            }
        }
        self.start_group();
    }
}

impl<'a> Text<'a> {
    pub fn new(text: &'a [u8]) -> Self
        ensures { result.rest.now ≡ text.now }
    {
        Text { rest: text }
    }

    pub fn lines(self) -> Lines<'a>
        ensures { result.rest.now ≡ self.entry.rest.now }
    {
        Lines { rest: self.rest }
    }

    /// Goes past these bytes, if they stand here.
    pub fn passes(&mut self, bytes: &[u8]) -> bool
        ensures yes { result ≡ true → self.old.rest.now ≡ bytes.now ++ self.new.rest.now }
        ensures no { result ≡ false → self.new ≡ self.old }
    {
        let Some(rest) = self.rest.strip_prefix(bytes) else {
            return false;
        };
        self.rest = rest;
        true
    }

    /// Goes past one byte, if there is one: what ended a cell.
    pub fn skip(&mut self)
        ensures { self.new.rest.now ≡ drop 1 self.old.rest.now }
    {
        if let Some((_, rest)) = self.rest.split_first() {
            self.rest = rest;
        }
    }

    /// Goes to the bar or the line's end that ends this cell, and returns what stands before it.
    pub fn cell(&mut self) -> &'a [u8]
        ensures { result.now ++ self.new.rest.now ≡ self.old.rest.now }
    {
        let text = self.rest;
        let end = text
            .iter()
            .position(|byte| ends_cell(*byte))
            .unwrap_or(text.len());
        self.rest = &text[end..];
        &text[..end]
    }

    // The number whose first digit stands here, modulo 2^32. It has a first digit, whatever byte that is.
    fn number(&mut self) -> u32
        ensures rear { IsRear self.new.rest.now self.old.rest.now }
        ensures shorter { 0 < length self.old.rest.now → length self.new.rest.now < length self.old.rest.now }
    {
        let Some((first, behind)) = self.rest.split_first() else {
            return 0;
        };
        let count = behind
            .iter()
            .take_while(|byte| byte.is_ascii_digit())
            .count();
        self.rest = &behind[count..];
        behind[..count].iter().fold(
            digit(*first),
            |value, byte| value.wrapping_mul(10).wrapping_add(digit(*byte)),
        )
    }

    // The number behind this byte, if the byte stands here and is not the text's last.
    fn number_after(&mut self, byte: u8) -> Option<u32>
        ensures none { IsNone result → self.new ≡ self.old }
        ensures rear { IsRear self.new.rest.now self.old.rest.now }
        ensures some { IsSome result → length self.new.rest.now < length self.old.rest.now }
    {
        match self.rest.split_first() {
            Some((first, behind)) if *first == byte && !behind.is_empty() => {
                self.rest = behind;
                Some(self.number())
            }
            _ => None,
        }
    }

    // The word that starts here: a number, or a key.
    fn word(&mut self) -> u32
        ensures rear { IsRear self.new.rest.now self.old.rest.now }
        ensures shorter { 0 < length self.old.rest.now → length self.new.rest.now < length self.old.rest.now }
    {
        match self.number_after(b'k') {
            Some(number) => number.wrapping_add(FIRST_KEY),
            None => self.number(),
        }
    }

    /// Writes the words up to a bar or the line's end over the first of these, as far as there is room, and returns how many it wrote. It goes to
    /// what ended them.
    #[tactic(auto, using(crate::proofs::Rear::rear_of_rear, crate::proofs::Rear::behind_is_rear))]
    pub fn words_over(&mut self, words: &mut [u32]) -> usize
        ensures count { result ≤ length words.new }
        ensures rear { IsRear self.new.rest.now self.old.rest.now }
    {
        let mut read = Reading::new(words);
        // A loop: a step goes past one byte, or past a whole word or the count of a group, which no iterator of bytes does.
        while let Some((first, behind)) = self.rest.split_first() {
            match *first {
                b'|' | b'\n' => break,
                b'(' => {
                    self.rest = behind;
                    read.start_group();
                }
                b')' => {
                    self.rest = behind;
                    read.repeat_group(self.number_after(b'*').unwrap_or(1));
                }
                b'k' | b'0'..=b'9' => {
                    let word = self.word();
                    if self.rest.first() == Some(&b'.') {
                        read.raise_next();
                    }
                    read.put(word, self.number_after(b'*').unwrap_or(1));
                }
                _ => self.rest = behind,
            }
        }
        read.count
    }

    /// The words up to a bar or the line's end, as far as there is room for them. It goes to what ended them.
    pub fn words<'w>(&mut self, room: &'w mut [u32]) -> &'w [u32]
        ensures few { length result.now ≤ length room.old }
        ensures rear { IsRear self.new.rest.now self.old.rest.now }
    {
        let count = self.words_over(room);
        &room[..count]
    }

    /// The first word of this cell, or 0.
    pub fn first_word(mut self) -> u32 {
        let mut words = [0];
        self.words_over(&mut words);
        words[0]
    }
}
