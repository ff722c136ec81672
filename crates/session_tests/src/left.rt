//! What a site holds after lines that each changed it, told as the answers to a few lines that read it.

use std::alloc::Global;
use std::test::Fail;

/// What one line does to a site.
#[derive(Clone, Copy, Debug, PartialEq, Eq)]
pub enum Change {
    /// /a has these bytes.
    A(&'static [u8]),
    NoA,
    /// /b has these bytes.
    B(&'static [u8]),
    NoB,
    /// /c has 5,000 bytes, of which byte `i` is `(i + 7) mod 256`.
    C,
    /// The cache has four blocks.
    Small,
}

/// Lines that change a site, each with an answer of one line, and what they do to it.
pub const CHANGES: [(&[u8], Change); 10] = [
    (b"put /a u g hi\n", Change::A(b"hi")),
    (b"put /b u g yo\n", Change::B(b"yo")),
    (b"put /a u g again\n", Change::A(b"again")),
    (b"rm /b\n", Change::NoB),
    (b"rm /a\n", Change::NoA),
    (b"configure\n", Change::Small),
    (b"make /c u g 5000 7\n", Change::C),
    (b"put /b u g ho\n", Change::B(b"ho")),
    (b"put /a u g\n", Change::A(b"")),
    (b"rm /b\n", Change::NoB),
];

/// Lines that read what they leave. The last one tells whether the cache has more than four blocks, and the next inode.
pub const READS: &[u8] = b"cat /a\ncat /b\nhead /c 4097\nmake /d u g 16385 0\n";

/// The files of a site, whether its cache is small, and the next inode.
#[derive(Clone, Copy)]
struct Held {
    a: Option<&'static [u8]>,
    b: Option<&'static [u8]>,
    c: bool,
    small: bool,
    next: u8,
}

impl Held {
    // A new file takes an inode.
    fn next_for(self, is_there: bool) -> u8 {
        if is_there {
            self.next
        } else {
            self.next.saturating_add(1)
        }
    }

    fn after(self, change: Change) -> Held {
        match change {
            Change::A(bytes) => Held {
                a: Some(bytes),
                next: self.next_for(self.a.is_some()),
                ..self
            },
            Change::NoA => Held { a: None, ..self },
            Change::B(bytes) => Held {
                b: Some(bytes),
                next: self.next_for(self.b.is_some()),
                ..self
            },
            Change::NoB => Held { b: None, ..self },
            Change::C => Held {
                c: true,
                next: self.next_for(self.c),
                ..self
            },
            Change::Small => Held {
                small: true,
                ..self
            },
        }
    }
}

const NO_FILE: &[u8] = b"refused: no file\n";

// The answer to `cat` of a file.
fn add_cat(answers: &mut Vec<u8>, file: Option<&[u8]>) -> Result<(), Fail> {
    let Some(bytes) = file else {
        answers.extend_from_slice(NO_FILE)?;
        return Ok(());
    };
    let count = [b'0'.saturating_add(bytes.len().min(9) as u8)];
    answers.extend_from_slice(b"bytes ")?;
    answers.extend_from_slice(&count)?;
    answers.extend_from_slice(b"\n")?;
    answers.extend_from_slice(bytes)?;
    answers.extend_from_slice(b"\n")?;
    Ok(())
}

// The answer to `head /c 4097`.
fn add_head(answers: &mut Vec<u8>, is_there: bool) -> Result<(), Fail> {
    if !is_there {
        answers.extend_from_slice(NO_FILE)?;
        return Ok(());
    }
    answers.extend_from_slice(b"bytes 4097\n")?;
    for place in 0u16..4097 {
        answers.push(((place + 7) % 256) as u8)?;
    }
    answers.extend_from_slice(b"\n")?;
    Ok(())
}

// The answer to `make /d u g 16385 0`.
fn add_made(answers: &mut Vec<u8>, held: Held) -> Result<(), Fail> {
    if held.small {
        answers.extend_from_slice(b"refused: no space\n")?;
        return Ok(());
    }
    answers.extend_from_slice(b"ok ")?;
    answers.extend_from_slice(&[b'0'.saturating_add(held.next)])?;
    answers.extend_from_slice(b"\n")?;
    Ok(())
}

/// What the lines that read answer after these changes, over a site that was new before them.
pub fn read_after(alloc: Global, changes: &[Change]) -> Result<Vec<u8>, Fail> {
    let mut held = Held {
        a: None,
        b: None,
        c: false,
        small: false,
        next: 1,
    };
    for change in changes {
        held = held.after(*change);
    }
    let mut answers = Vec::new(alloc);
    add_cat(&mut answers, held.a)?;
    add_cat(&mut answers, held.b)?;
    add_head(&mut answers, held.c)?;
    add_made(&mut answers, held)?;
    Ok(answers)
}
