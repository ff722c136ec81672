//! The archiver.cmd of a film house: rushes, finals, sound, the rest.

use super::shown::shown_in;
use std::test::Fail;

const TEXT: &[u8] = b"# film1: rushes, finals, sound, the rest
logfile = /var/adm/archiver.log
interval = 10m
setarchdone = off
fs = film1
no_archive tmp
rushes rushes -minsize 1k
    1 -norelease 10m
    2 -norelease 1h
finals finals
    1 0
    2 30m
    3 1d
sound sound -name \\.wav$
    1 4m 90d
    2 1h
small . -maxsize 64k
    1 4m
params
allsets -sort path -startage 2m
rushes.1 -archmax 1M -startcount 2 -join path
rushes.2 -reserve user
finals.1 -startage 0
sound.1 -fillvsns
endparams
vsnpools
daily li ^DAY
keep li ^FIN
safe li ^VLT
endvsnpools
vsns
rushes.1 li -pool daily
rushes.2 li -pool safe
finals.1 li -pool keep
finals.2 li -pool safe
finals.3 li ^FIN00[34]$
sound.1 li -pool daily
sound.2 li -pool safe
small.1 li ^DAY004$
film1.1 li -pool daily
endvsns
";

const WANT: &[u8] =
    b"|a 6 no_archive Site tmp Default Default|a 7 rushes Site rushes min=1024 Default Default\
    |a 10 finals Site finals Default Default|a 14 sound Site sound name=\\.wav$ Default Default\
    |a 17 small Site . max=65536 Default Default\
    |s no_archive|s rushes 1@600n 2@3600n|s finals 1@0 2@1800 3@86400|s sound 1@240+7776000 2@3600|s small 1@240|s film1 1@240\
    |p allsets Sort(Sort { key: Path, reverse: false }) Startage(120)|p rushes.1 Archmax(1048576) Startcount(2) Join(Path)\
    |p rushes.2 Reserve(Owner(User))|p finals.1 Startage(0)|p sound.1 Fillvsns\
    |v rushes.1 li:^DAY@27|v rushes.2 li:^VLT@29|v finals.1 li:^FIN@28|v finals.2 li:^VLT@29|v finals.3 li:^FIN00[34]$@36\
    |v sound.1 li:^DAY@27|v sound.2 li:^VLT@29|v small.1 li:^DAY004$@39|v film1.1 li:^DAY@27|V";

#[test]
fn reads_the_film_house(rt: HostRuntime) -> Result<(), Fail> {
    assert_eq!(rt; shown_in(rt.alloc(), TEXT, b"film1")?.as_slice(), WANT);
    Ok(())
}
