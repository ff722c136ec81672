//! A text cut into fields.

ghost use Rattle.std.specs.Prelude.{◌≡◌, ◌++◌, OnOk, IfOk, position, filter, not, [], ◌∷◌, IfSome, ◌<◌, ◌+◌, take, drop, length};
ghost use Rattle.site_text.specs.Lines.{fields_of, is_blank, is_empty};

use base::{Bytes, List};
use std::alloc::{AllocError, Global};

fn first_blank(text: &[u8]) -> Option<usize>
    ensures place { result ≡ position is_blank text.now }
    ensures within { IfSome result (λ at. at < length text.now) }
{
    text.iter().position(|b| *b == b' ' || *b == b'\t')
}

fn push_part(alloc: Global, found: &mut List<Bytes>, part: &[u8]) -> Result<(), AllocError>
    ensures { OnOk result (found.new ≡ found.old ++ filter (λ field. not (is_empty field)) (part.now ∷ [])) }
{
    if !part.is_empty() {
        found.push(Bytes::from_slice(alloc, part)?)?;
    }
    Ok(())
}

/// What stands before a place, and behind it.
pub fn cut_at(text: &[u8], at: usize) -> (&[u8], &[u8])
    requires { at < length text.now }
    ensures before { result.0.now ≡ take at text.now }
    ensures behind { result.1.now ≡ drop (at + 1) text.now }
    ensures shorter { length result.1.now < length text.now }
{
    (&text[..at], &text[at + 1..])
}

/// The fields of a text: its longest parts without a blank or a tab. Only want of memory is an error.
pub fn cut_fields(alloc: Global, text: &[u8]) -> Result<List<Bytes>, AllocError>
    ensures { IfOk result (λ fields. fields ≡ fields_of text.now) }
{
    let mut found = List::new(alloc);
    let mut rest = text;
    while let Some(at) = first_blank(rest) {
        let (part, behind) = cut_at(rest, at);
        push_part(alloc, &mut found, part)?;
        rest = behind;
    }
    push_part(alloc, &mut found, rest)?;
    Ok(found)
}
