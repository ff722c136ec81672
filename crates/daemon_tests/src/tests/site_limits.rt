//! How many libraries and volumes a site.conf may have.

use super::{push_number, refused};
use base::{Bytes, COMMAND_FILE_MAX};
use daemon_cmds::read_site;
use site_text::{ConfError, ConfFault};
use std::alloc::{AllocError, Global};
use std::test::Fail;

/// So many lines of which each has its number, from 1000, in its midst.
fn numbered(
    alloc: Global,
    text: &mut Bytes,
    before: &[u8],
    count: u32,
    behind: &[u8],
) -> Result<(), AllocError> {
    for number in 0..count {
        text.extend(before)?;
        push_number(text, alloc, 1000 + u64::from(number))?;
        text.extend(behind)?;
    }
    Ok(())
}

/// How many libraries and volumes a text says.
fn counts(alloc: Global, text: &[u8]) -> Result<(usize, usize), ConfError> {
    if text.len() > COMMAND_FILE_MAX {
        return Err(ConfError::NoMemory);
    }
    read_site(alloc, text).map(|site| (site.libraries.len(), site.volumes.len()))
}

#[test]
fn site_has_so_many_libraries(rt: HostRuntime) -> Result<(), Fail> {
    let mut text = Bytes::new(rt.alloc());
    numbered(rt.alloc(), &mut text, b"library = l", 64, b"1\n")?;
    assert_eq!(rt; counts(rt.alloc(), text.as_slice()), Ok((64, 0)));
    text.extend(b"library =")?;
    assert_eq!(rt;
        counts(rt.alloc(), text.as_slice()).err(),
        refused(65, ConfFault::TooMany)
    );
    Ok(())
}

#[test]
fn site_has_so_many_volumes(rt: HostRuntime) -> Result<(), Fail> {
    let mut text = Bytes::from_slice(rt.alloc(), b"library = a 1\n")?;
    numbered(rt.alloc(), &mut text, b"volume = a li V", 1024, b"1M\n")?;
    assert_eq!(rt; counts(rt.alloc(), text.as_slice()), Ok((1, 1024)));
    text.extend(b"volume = b")?;
    assert_eq!(rt;
        counts(rt.alloc(), text.as_slice()).err(),
        refused(1026, ConfFault::TooMany)
    );
    Ok(())
}
