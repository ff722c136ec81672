//! What no clause says: that the calls succeed, and tables made by hand from the forms of the four files.

use base::Bytes;
use site_text::{ConfError, ConfFault, ConfRefusal};
use std::alloc::{AllocError, Global};

mod recycler;
mod releaser;
mod site;
mod site_limits;
mod stager;

/// A site with the libraries `robot` of 2 drives and `vault` of 1.
const SITE: &[u8] = b"library = robot 2\nlibrary = vault 1\n";

/// A text that is refused, at which line, and why.
type Refused = (&'static [u8], u32, ConfFault);

/// A text, and what it says.
type Said = (&'static [u8], &'static [u8]);

fn refused(line: u32, fault: ConfFault) -> Option<ConfError> {
    Some(ConfError::Refused(ConfRefusal { line, fault }))
}

fn push_number(text: &mut Bytes, alloc: Global, number: u64) -> Result<(), AllocError> {
    let digits = format!(in alloc; "{number} ")?;
    text.extend(digits.as_bytes())
}
