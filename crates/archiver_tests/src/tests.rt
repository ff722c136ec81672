//! What no clause says: that the calls succeed, and texts made by hand from the format.

use archiver_cmd::{ArchiverConf, read_archiver};
use base::COMMAND_FILE_MAX;
use site_text::{ConfError, ConfFault, ConfRefusal};
use std::alloc::Global;
use std::test::Fail;

mod accepted;
mod film_house;
mod limits;
mod looked_up;
mod refused;
mod shown;

/// The line and the fault, if it is refused.
type Refusal = Option<(u32, ConfFault)>;

fn refusal_of(answer: Result<ArchiverConf, ConfError>) -> Result<Refusal, ConfError> {
    match answer {
        Ok(_) => Ok(None),
        Err(ConfError::Refused(ConfRefusal { line, fault })) => Ok(Some((line, fault))),
        Err(error) => Err(error),
    }
}

/// The refusal of a text in a site whose file system is samfs1.
fn refusal(alloc: Global, text: &[u8]) -> Result<Refusal, Fail> {
    if text.len() > COMMAND_FILE_MAX {
        return Err("a long text".into());
    }
    Ok(refusal_of(read_archiver(alloc, text, b"samfs1"))?)
}
