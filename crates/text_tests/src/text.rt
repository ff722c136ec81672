//! What no clause says: that the calls succeed, and vectors made by hand from the format.

use base::{Bytes, COMMAND_FILE_MAX, List};
use site_text::{
    CommandFile, ConfError, ConfFault, ConfRefusal, Fields, Line, LineError, OptionTable,
    TableOption, TextRefusal, cut_fields, lines, no_option, number_value, read_age, read_file,
    read_options, read_size, read_weight,
};
use std::alloc::{AllocError, Global};
use std::test::Fail;

/// The lines as `NUMBER:FIELD|FIELD;`, for numbers below 10.
fn shown(alloc: Global, found: &[Line]) -> Result<Bytes, AllocError> {
    let mut text = Bytes::new(alloc);
    for line in found {
        if line.number < 10 {
            text.push(b'0' + line.number as u8)?;
        }
        text.push(b':')?;
        for field in line.fields.as_slice() {
            text.extend(field.as_slice())?;
            text.push(b'|')?;
        }
        text.push(b';')?;
    }
    Ok(text)
}

/// Texts, and their lines.
const LINES: [(&[u8], &[u8]); 10] = [
    (b"", b""),
    (b"a b\n\tc\r\n \n\nd", b"1:a|b|;2:c|;5:d|;"),
    (b"a # b \\\nc #", b"1:a|;2:c|;"),
    (b"a \\\n b\\\nc\nd", b"1:a|bc|;4:d|;"),
    (b"a\\\r\nb\n#\nc", b"1:ab|;4:c|;"),
    (b"a\\\n#b\nc", b"1:a|;3:c|;"),
    (b"\\\n\\\nx", b"1:x|;"),
    (b"a\\b\\ \nc", b"1:a\\b\\|;2:c|;"),
    (b"a\r", b"1:a\r|;"),
    (
        b"# \xc3\xbc\n\xc3\xa9\t\xe2\x82\xac\t \xf0\x9f\x8e\xac # \xc3\xa9\nb",
        b"2:\xc3\xa9|\xe2\x82\xac|\xf0\x9f\x8e\xac|;3:b|;",
    ),
];

#[test]
fn cuts_lines(rt: HostRuntime) -> Result<(), Fail> {
    for (text, want) in LINES {
        if text.len() <= COMMAND_FILE_MAX {
            let found = lines(rt.alloc(), text)?;
            let shown = shown(rt.alloc(), found.as_slice())?;
            assert_eq!(rt; shown.as_slice(), want);
        }
    }
    Ok(())
}

/// Texts that are refused.
const NO_TEXTS: [(&[u8], TextRefusal); 5] = [
    (b"a\n\xffb", TextRefusal::NotUtf8(2)),
    (b"a\n\xc3\n\\", TextRefusal::NotUtf8(2)),
    (b"a\nb\\", TextRefusal::EndsContinued(2)),
    (b"a\\\n", TextRefusal::EndsContinued(1)),
    (b"a\\\nb \\\r\n", TextRefusal::EndsContinued(2)),
];

#[test]
fn refuses_texts(rt: HostRuntime) {
    for (text, want) in NO_TEXTS {
        if text.len() <= COMMAND_FILE_MAX {
            assert_eq!(rt; lines(rt.alloc(), text).err(), Some(want));
        }
    }
}

/// Ages, in seconds.
const AGES: [(&[u8], Result<u64, TextRefusal>); 16] = [
    (b"0", Ok(0)),
    (b"1h30m", Ok(5400)),
    (b"90", Ok(90)),
    (b"1m30", Ok(90)),
    (b"2w1d", Ok(1_296_000)),
    (b"1y", Ok(31_536_000)),
    (b"000000000010s", Ok(10)),
    (b"1099511627775", Err(TextRefusal::BadAge)),
    (b"999999999999w", Err(TextRefusal::Overflow)),
    (b"1817975w4d2175s", Ok(1_099_511_627_775)),
    (b"1817975w4d2176s", Err(TextRefusal::Overflow)),
    (b"999999999999s99511627776", Ok(1_099_511_627_775)),
    (b"999999999999s99511627777", Err(TextRefusal::Overflow)),
    (b"", Err(TextRefusal::BadAge)),
    (b"1h m", Err(TextRefusal::BadAge)),
    (b"h", Err(TextRefusal::BadAge)),
];

/// Sizes, in bytes.
const SIZES: [(&[u8], Result<u64, TextRefusal>); 12] = [
    (b"0", Ok(0)),
    (b"10k", Ok(10_240)),
    (b"10K", Ok(10_240)),
    (b"64m", Ok(67_108_864)),
    (b"1G", Ok(1_073_741_824)),
    (b"1023t", Ok(1_124_800_395_214_848)),
    (b"1024T", Err(TextRefusal::Overflow)),
    (b"000000000000001", Ok(1)),
    (b"0000000000000001", Err(TextRefusal::BadSize)),
    (b"1234567890123456k", Err(TextRefusal::BadSize)),
    (b"1kk", Err(TextRefusal::BadSize)),
    (b"k", Err(TextRefusal::BadSize)),
];

/// Weights, in millionths.
const WEIGHTS: [(&[u8], Result<u32, TextRefusal>); 12] = [
    (b"0", Ok(0)),
    (b"1", Ok(1_000_000)),
    (b"1.0", Ok(1_000_000)),
    (b"0.5", Ok(500_000)),
    (b".25", Ok(250_000)),
    (b"0.000001", Ok(1)),
    (b"1.000001", Err(TextRefusal::BadWeight)),
    (b"0.0000001", Err(TextRefusal::BadWeight)),
    (b"1.", Err(TextRefusal::BadWeight)),
    (b"2", Err(TextRefusal::BadWeight)),
    (b"01", Err(TextRefusal::BadWeight)),
    (b".", Err(TextRefusal::BadWeight)),
];

#[test]
fn reads_fields(rt: HostRuntime) {
    for (field, want) in AGES {
        assert_eq!(rt; read_age(field), want);
    }
    for (field, want) in SIZES {
        assert_eq!(rt; read_size(field), want);
    }
    for (field, want) in WEIGHTS {
        assert_eq!(rt; read_weight(field), want);
    }
}

/// `-n N` gives N, from 0 to 9, and `-x` gives 0; nothing gives a second 0.
#[derive(Drop)]
struct Flags;

impl OptionTable for Flags {
    ghost use Rattle.std.specs.Prelude.{codes, ◌∷◌, [], ◌==◌, ◌&&◌};
    ghost use Rattle.std.specs.List.{list_any};
    ghost use Rattle.site_text.specs.Values.{number_value};
    ghost use Rattle.site_text.specs.Options.{Alone, WithValue, listed};

    type Word = ();

    type Given = u32;

    ghost options = { λ table. record {
      option = listed ((codes "-n", WithValue (number_value 0 9)) ∷ (codes "-x", Alone 0) ∷ []);
      excludes = λ before given. (given == 0) && list_any (λ b. b == 0) before;
    } };

    ghost value_of = { λ table word. number_value 0 9 };

    fn option(&self, _alloc: Global, field: &[u8]) -> Result<TableOption<u32, ()>, LineError> {
        match field {
            b"-n" => Ok(TableOption::WithValue(())),
            b"-x" => Ok(TableOption::Alone(0)),
            _ => Err(LineError::Fault(no_option(field))),
        }
    }

    fn value(&self, _alloc: Global, _word: (), field: &[u8]) -> Result<u32, LineError> {
        Ok(number_value(0, 9, field)?)
    }

    fn excludes(&self, before: &[u32], given: &u32) -> bool {
        *given == 0 && before.contains(&0)
    }
}

/// Options, how they are read, and what was given before a fault.
const OPTIONS: [(&[u8], Result<(), LineError>, &[u32]); 7] = [
    (b"", Ok(()), &[]),
    (b"-x -n 3 -n 4", Ok(()), &[0, 3, 4]),
    (b"-n", Err(LineError::Fault(ConfFault::MissingField)), &[]),
    (
        b"-n 10 -y",
        Err(LineError::Fault(ConfFault::OutOfRange)),
        &[],
    ),
    (
        b"-n 1 -y",
        Err(LineError::Fault(ConfFault::UnknownDirective)),
        &[1],
    ),
    (
        b"-n 1 y",
        Err(LineError::Fault(ConfFault::ExtraField)),
        &[1],
    ),
    (
        b"-x -n 0 -y",
        Err(LineError::Fault(ConfFault::Conflict)),
        &[0],
    ),
];

#[test]
fn reads_options(rt: HostRuntime) -> Result<(), Fail> {
    for (text, want, given) in OPTIONS {
        let fields = cut_fields(rt.alloc(), text)?;
        let mut found = List::new(rt.alloc());
        assert_eq!(rt;
            read_options(
                rt.alloc(),
                &Flags,
                &mut found,
                Fields::new(fields.as_slice())
            ),
            want
        );
        assert_eq!(rt; found.as_slice(), given);
    }
    Ok(())
}

/// Each line is a number from 0 to 9, of which the latest is known. After a 7 the section of line 1 is open.
#[derive(Drop)]
struct Latest;

impl CommandFile for Latest {
    ghost use Rattle.std.specs.Prelude.{◌≡◌, Ok, Err, Some, None, ◌==◌, if◌then◌else◌, option_and_then};
    ghost use Rattle.site_text.specs.Fields.{◌>>=◌, next_field};
    ghost use Rattle.site_text.specs.Values.{number_value};
    ghost use Rattle.site_text.specs.LastValues.{last_of};

    type Reading = u32;

    type Known = Option<u32>;

    ghost line_of = { λ file before line. next_field line.fields >>= λ next. number_value 0 9 next.0 };

    ghost line_says = { λ file before line said. (next_field line.fields >>= λ next. number_value 0 9 next.0) ≡ Ok said };

    ghost line_wrong = { λ file before line fault. (next_field line.fields >>= λ next. number_value 0 9 next.0) ≡ Err fault };

    ghost open_section = { λ file said. option_and_then (λ n. if n == 7 then Some 1 else None) (last_of (λ n. Some n) said) };

    ghost tells = { λ file said known. known ≡ last_of (λ n. Some n) said };

    fn start(&self, _alloc: Global) -> Result<Option<u32>, AllocError> {
        Ok(None)
    }

    fn read_line(
        &self,
        _alloc: Global,
        _known: &Option<u32>,
        line: &Line,
    ) -> Result<u32, LineError> {
        let mut fields = Fields::new(line.fields.as_slice());
        let field = fields.next()?;
        Ok(number_value(0, 9, field)?)
    }

    #[tactic(auto, using(site_text::proofs::LastLaws::last_of_more))]
    fn add(&self, known: &mut Option<u32>, reading: u32) -> Result<(), AllocError> {
        *known = Some(reading);
        Ok(())
    }

    fn open_section(&self, known: &Option<u32>) -> Option<u32> {
        match known {
            Some(7) => Some(1),
            _ => None,
        }
    }

    ghost reads_what_is_said = { λ file before line said. (λ is. is, λ is. is) };

    ghost refuses_what_is_wrong = { λ file before line fault. (λ is. is, λ is. is) };
}

/// Texts, and the latest number that each says.
const FILES: [(&[u8], Result<Option<u32>, (u32, ConfFault)>); 8] = [
    (b"", Ok(None)),
    (b"1\n7\n2 # c\n", Ok(Some(2))),
    (b"1\n7\n", Err((1, ConfFault::SectionNotClosed))),
    (b"1\nx\n10\n7", Err((2, ConfFault::BadValue))),
    (b"1\n1\\\n0\nx", Err((2, ConfFault::OutOfRange))),
    (b"x\n1\n\xff", Err((3, ConfFault::NotText))),
    (b"x\n1\\", Err((2, ConfFault::NotText))),
    (b"x\n1\\\n\n\\\n", Err((4, ConfFault::NotText))),
];

#[test]
fn reads_files(rt: HostRuntime) {
    for (text, want) in FILES {
        if text.len() <= COMMAND_FILE_MAX {
            let want = want.map_err(|at| ConfError::Refused(ConfRefusal {
                line: at.0,
                fault: at.1,
            }));
            assert_eq!(rt; read_file(rt.alloc(), &Latest, text), want);
        }
    }
}
