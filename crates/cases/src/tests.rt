// What goes to a handle and comes from one, and that a handle that fails is told of.
use crate::headings::heading_to;
use crate::input::read_input;
use crate::replies::print_reply;
use crate::text::Text;
use engine::Answer;
use policy::codes::Verdict;
use refusals::{Part, Refusal, Refused};
use std::alloc::{Allocator, Global};
use std::cell::Cell;
use std::io::{BufRead, Chain, Read};
use std::{fmt, io};

// A handle that takes this text, in pieces, and fails at any other.
#[derive(Drop)]
struct Takes<'a> {
    alloc: Global,
    rest: Cell<&'a [u8]>,
}

impl<'a> Takes<'a> {
    fn new(alloc: Global, text: &'a [u8]) -> Self {
        Takes {
            alloc,
            rest: Cell::new(text),
        }
    }

    fn take(&self, piece: &[u8]) -> io::Result<()> {
        match self.rest.get().strip_prefix(piece) {
            Some(rest) => {
                self.rest.set(rest);
                Ok(())
            }
            None => Err(io::Error::from(io::ErrorKind::BrokenPipe)),
        }
    }

    fn has_all(&self) -> bool {
        self.rest.get().is_empty()
    }
}

impl Print for Takes<'_> {
    fn print<D: fmt::Display + Drop>(&self, value: D) -> io::Result<()> {
        self.take(value.to_string(self.alloc)?.as_bytes())
    }

    fn println<D: fmt::Display + Drop>(&self, value: D) -> io::Result<()> {
        self.print(value)?;
        self.take(b"\n")
    }

    fn write_all(&self, bytes: &[u8]) -> io::Result<()> {
        self.take(bytes)
    }
}

#[test]
fn prints_a_reply(rt: HostRuntime) {
    let mut area = [5; 642];
    area[..7].copy_from_slice(&[0, 1, 2, 3, 4, 0, 0]);
    let refused = Err(Refused {
        refusal: Refusal::TooManyRows,
        part: Part::Query,
    });
    let answered = Ok(Answer {
        verdict: Verdict::Lower,
        draws: 9,
    });
    let cases: [(Result<Answer, Refused>, &[u32], &[u8]); 3] = [
        (refused, &[5; 642], b"refused 13, part 16, the rest stays"),
        (refused, &area, b"refused 13, part 16, THE REST IS TOUCHED"),
        (
            answered,
            &area,
            b"lower, 9 draws, only 1: 2 3 4 0 0, the rest stays",
        ),
    ];
    for (reply, area, text) in cases {
        let to = Takes::new(rt.alloc(), text);
        assert!(rt; print_reply(&to, reply, area).is_ok(), "taken");
        assert!(rt; to.has_all(), "all of it");
        let others: [&[u8]; 2] = [b"other text", b", the rest stays"];
        for other in others {
            let to = Takes::new(rt.alloc(), other);
            assert!(rt; print_reply(&to, reply, area).is_err(), "not taken");
        }
    }
}

#[test]
fn prints_a_heading_or_sets_our_key(rt: HostRuntime) {
    let mut our_key = 7;
    let line = Text::new(b"a heading\nand a line");
    let to = Takes::new(rt.alloc(), b"a heading\n");
    assert!(rt; heading_to(&to, line, &mut our_key).is_ok(), "taken");
    assert!(rt; to.has_all(), "all of it");
    let others: [&[u8]; 3] = [b"other text", b"a heading", b"\n"];
    for other in others {
        let to = Takes::new(rt.alloc(), other);
        assert!(rt; heading_to(&to, line, &mut our_key).is_err(), "not taken");
    }
    assert_eq!(rt; our_key, 7, "after a heading");

    let to = Takes::new(rt.alloc(), b"");
    let line = Text::new(b"our key k3\nand a line");
    assert!(rt;
        heading_to(&to, line, &mut our_key).is_ok(),
        "nothing printed"
    );
    assert_eq!(rt; our_key, 2147483651, "our key");
}

// What is read behind the last byte: the end, or a failure.
#[derive(Clone, Copy)]
struct End {
    fails: bool,
}

impl Read for End {
    fn read(&mut self, _buf: &mut [u8]) -> io::Result<usize> {
        if self.fails {
            return Err(io::Error::from(io::ErrorKind::BrokenPipe));
        }
        Ok(0)
    }
}

impl BufRead for End {
    fn fill_buf(&mut self) -> io::Result<&[u8]> {
        if self.fails {
            return Err(io::Error::from(io::ErrorKind::BrokenPipe));
        }
        Ok(b"")
    }

    fn consume(&mut self, _amount: usize) {}
}

// A handle that gives this text, in two pieces.
#[derive(Clone, Copy)]
struct Gives<'a> {
    text: &'a [u8],
    end: End,
}

impl<'a> Input for Gives<'a> {
    type Reader = Chain<Chain<&'a [u8], &'a [u8]>, End>;

    fn read_line<A: Allocator + Clone>(&self, buf: &mut String<A>) -> io::Result<usize> {
        self.reader().read_line(buf)
    }

    fn lines<A: Allocator>(&self, alloc: A) -> io::Lines<Self::Reader, A> {
        self.reader().lines(alloc)
    }

    fn reader(&self) -> Self::Reader {
        let (first, second) = self.text.split_at(self.text.len() / 2);
        first.chain(second).chain(self.end)
    }
}

#[test]
fn reads_the_input_as_far_as_its_longest(rt: HostRuntime) {
    let text = [7; 65537];
    for (count, read, fails) in [
        (0, 0, false),
        (5, 5, false),
        (65536, 65536, true),
        (65537, 65536, true),
    ] {
        let text = &text[..text.len().min(count)];
        let from = Gives {
            text,
            end: End { fails },
        };
        let input = read_input(&(from, rt.alloc()));
        assert!(rt;
            input.is_ok_and(|input| input.as_slice() == &text[..text.len().min(read)]),
            "of {count} bytes"
        );
    }

    let from = Gives {
        text: &text[..5],
        end: End { fails: true },
    };
    assert!(rt; read_input(&(from, rt.alloc())).is_err(), "a read fails");
}
