//! What the objects in memory do at the calls that fail, and what the adapters answer.

use base::Bytes;
use fixtures::{folder_of, numbers};
use outside::{
    Clock, DiskFolder, Failed, Folder, FolderFault, LiteralPatterns, MemoryClock, MemorySink,
    MemorySource, PatternFault, Patterns, Source, StandardInput, StandardOutput, SystemClock,
    write_all,
};
use std::test::Fail;
use std::{env, fs, process};

#[test]
fn a_source_gives_short_reads_and_fails_at_its_second(rt: HostRuntime) -> Result<(), Fail> {
    let text = Bytes::from_slice(rt.alloc(), b"hello world")?;
    let mut source = MemorySource::new(text, 4, numbers(rt.alloc(), &[2])?);
    let mut piece = [0u8; 6];
    for want in [Ok(4), Err(Failed {}), Ok(4), Ok(3), Ok(0)] {
        assert_eq!(rt; source.read(&mut piece), want);
    }
    Ok(())
}

#[test]
fn a_sink_keeps_what_came_before_its_fault(rt: HostRuntime) -> Result<(), Fail> {
    let mut sink = MemorySink::new(rt.alloc(), 3, numbers(rt.alloc(), &[2])?);
    for (piece, want) in [(b"hello", Err(Failed {})), (b"p, me", Ok(()))] {
        assert_eq!(rt; write_all(&mut sink, piece), want);
    }
    assert_eq!(rt; sink.written(), b"help, me".as_slice());
    Ok(())
}

#[test]
fn a_folder_answers_by_name(rt: HostRuntime) -> Result<(), Fail> {
    let long = vec![in rt.alloc(); 120; 70_000]?;
    let files: [(&[u8], &[u8]); 3] = [(b"a", &long[..3]), (b"b", &long), (b"a", &long[..5])];
    let mut folder = folder_of(rt.alloc(), &files, &[4])?;
    for (name, want) in [
        (b"a", Ok(3)),
        (b"b", Ok(65_537)),
        (b"c", Err(FolderFault::NoFile)),
        (b"a", Err(FolderFault::Failed)),
        (b"a", Ok(3)),
    ] {
        assert_eq!(rt; folder.read_file(name).map(|text| text.len()), want);
    }
    Ok(())
}

#[test]
fn a_clock_gives_its_last_moment_again(rt: HostRuntime) -> Result<(), Fail> {
    let mut clock = MemoryClock::new(numbers(rt.alloc(), &[7, 5, 9])?);
    for want in [7, 5, 9, 9, 9] {
        assert_eq!(rt; clock.now(), want);
    }
    Ok(())
}

#[test]
fn literal_patterns_are_found_where_they_stand(rt: HostRuntime) -> Result<(), Fail> {
    let searches = numbers(rt.alloc(), &[3])?;
    let mut patterns = LiteralPatterns::new(rt.alloc(), numbers(rt.alloc(), &[2])?, searches);
    let pattern = patterns.build(b"lo")?;
    for (subject, want) in [
        (b"hello", Ok(true)),
        (b"l o l", Ok(false)),
        (b"hello", Err(PatternFault::Failed)),
    ] {
        assert_eq!(rt; patterns.finds(&pattern, subject), want);
    }
    assert_eq!(rt; patterns.refused(), b"lo".as_slice());
    assert!(rt; patterns.build(b"x").is_err());
    Ok(())
}

#[test]
fn a_folder_of_the_file_system_gives_the_fronts_of_its_files(rt: HostRuntime) -> Result<(), Fail> {
    let alloc = rt.alloc();
    let name = format!(in alloc; "samq_outside_{}", process::id(rt.process()))?;
    let place = env::temp_dir(&rt)?.join(alloc, name.as_str())?;
    fs::create_dir_all(&rt, place.as_path())?;
    let long = vec![in alloc; 120; 70_000]?;
    fs::write(&rt, place.join(alloc, "long")?, long.as_slice())?;
    let mut folder = DiskFolder::new(alloc, &rt, place.to_str().ok_or("a path")?)?;
    for (name, want) in [
        (b"long".as_slice(), Ok(65_537)),
        (b"none".as_slice(), Err(FolderFault::NoFile)),
        (b".".as_slice(), Err(FolderFault::Failed)),
    ] {
        assert_eq!(rt; folder.read_file(name).map(|text| text.len()), want);
    }
    fs::remove_dir_all(&rt, place.as_path())?;
    Ok(())
}

#[test]
fn the_streams_and_the_clock_of_the_host_answer(rt: HostRuntime) {
    let mut input = StandardInput::new(b"hello".as_slice());
    let mut piece = [0u8; 4];
    for want in [4, 1, 0] {
        assert_eq!(rt; input.read(&mut piece), Ok(want));
    }
    assert_eq!(rt;
        write_all(&mut StandardOutput::new(&rt), b"written\n"),
        Ok(())
    );
    assert!(rt; 1_700_000_000 < SystemClock::new(&rt).now());
}
