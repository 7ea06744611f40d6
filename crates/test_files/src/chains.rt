//! Headers and chains of small files.

use crate::texts::{are_numbers, are_spelled, number, numbers, spelled, word};
use cfb_header::fault::ChainFault;
use cfb_header::header::Header;
use read_chains::fat::Fat;
use read_chains::image::Image;
use std::alloc::Global;
use std::process::Abort;

/// A header: the FAT in sector 0, the directory at sector 1, a mini FAT of one sector at sector 5.
const HEADER: &str =
    "d0cf11e0a1b11ae1,16*00,3e000300feff09000600,10*00,01000000,01000000,4*00,00100000,05000000,01000000,feffffff,8*00,432*ff";

/// Behind the FAT each byte of sector n is n, but for sector 5, which is a mini FAT of two linked sectors, and sector
/// 8, of which 12 bytes are there.
const SECTORS: &str = "512*01,512*02,512*03,512*04,01000000feffffff,504*ff,512*06,512*07,12*08";

/// The FATs of two files.
pub(crate) const LINKED: &str =
    "fdffffff,08000000,feffffff,04000000,03000000,feffffff,c8000000,02000000,feffffff,476*ff";

pub(crate) const MINI: &str = "fdffffff,feffffff,03000000,3*feffffff,488*ff";

/// Four words a call: the call, a sector or some, how many bytes or which bytes are wanted, and what is told.
const LINKED_CALLS: &str = "chain 3 . Cycle
chain 6 . OutOfFile
chain 0 . CrossLinked
bytes 1 1025 ShortChain
join 1 512*01,12*08,500*00 1,8
bytes 7 513 512*07,02
bytes 2 1 CrossLinked
bytes 2 0 0*00
run 6,7 . 512*06,512*07
run 1,8 . none
free . . -";

const MINI_CALLS: &str = "free . . 6";

/// What the mini stream tells, and the file then.
const STREAM_CALLS: &str = "bytes 0 100 100*02
chain 1 . CrossLinked
chain 10 . OutOfFile";

const LATER_CALLS: &str = "chain 5 . CrossLinked
chain 3 . CrossLinked";

/// A place in the header, a byte put there and the fault, with the field's offset where it names one.
const FAULTS: &str = "7 e2 BadSignature 0
26 04 Unsupported 26
29 fe Unsupported 28
30 0c Unsupported 30
33 06 Unsupported 32
58 01 Unsupported 56
45 05 TooBig 0
72 09 TooBig 0";

pub(crate) fn file_of(rt: &impl Abort, alloc: Global, fat: &str) -> Vec<u8> {
    let mut file = spelled(rt, alloc, HEADER);
    push(rt, alloc, &mut file, fat);
    push(rt, alloc, &mut file, SECTORS);
    file
}

fn push(rt: &impl Abort, alloc: Global, file: &mut Vec<u8>, text: &str) {
    file.extend_from_slice(&spelled(rt, alloc, text))
        .expect(rt, "memory");
}

pub(crate) fn header_of(rt: &impl Abort, file: &[u8]) -> Header {
    Header::read(file).expect(rt, "a header")
}

fn load<'a>(rt: &impl Abort, alloc: Global, header: &Header, file: &'a [u8]) -> Fat<'a> {
    Fat::load(alloc, header, Image::Whole(file)).expect(rt, "a table")
}

/// Checks that a table tells what each call wants.
fn play(rt: &impl Abort, alloc: Global, fat: &mut Fat, calls: &str) {
    for row in calls.split('\n') {
        assert!(rt; answers(rt, alloc, fat, row), "{row}");
    }
}

fn answers(rt: &impl Abort, alloc: Global, fat: &mut Fat, row: &str) -> bool {
    let mut words = row.split_whitespace();
    let call = word(&mut words);
    let sector = word(&mut words);
    let with = word(&mut words);
    carry_out(rt, alloc, fat, call, sector, with, word(&mut words))
}

fn carry_out(
    rt: &impl Abort,
    alloc: Global,
    fat: &mut Fat,
    call: &str,
    sector: &str,
    with: &str,
    want: &str,
) -> bool {
    match call {
        "chain" => is_refused(alloc, fat, number(sector), want),
        "bytes" => holds(rt, alloc, fat, number(sector), number(with), want),
        "join" => joins(rt, alloc, fat, number(sector), with, want),
        "run" => run_is(rt, alloc, fat, sector, want),
        _ => free(fat) == number(want),
    }
}

fn free(fat: &Fat) -> u32 {
    fat.free_sector().unwrap_or(u32::MAX)
}

/// Whether no chain is found from a sector on, for this fault.
fn is_refused(alloc: Global, fat: &mut Fat, start: u32, want: &str) -> bool {
    match fat.chain(alloc, start) {
        Ok(_) => false,
        Err(fault) => fault.name() == want,
    }
}

/// Whether a chain is marked and has these first bytes, or isn't for this fault.
fn holds(rt: &impl Abort, alloc: Global, fat: &mut Fat, start: u32, len: u32, want: &str) -> bool {
    match fat.mark_chain(start, len) {
        Ok(()) => are_held(
            rt,
            alloc,
            fat,
            start,
            &held(rt, alloc, fat, start, len),
            want,
        ),
        Err(fault) => fault.name() == want,
    }
}

/// Whether bytes of a chain are these, also as they are compared where they stand.
fn are_held(
    rt: &impl Abort,
    alloc: Global,
    fat: &Fat,
    start: u32,
    bytes: &[u8],
    want: &str,
) -> bool {
    let same = fat.holds(alloc, start, bytes).expect(rt, "memory");
    same && are_spelled(rt, alloc, bytes, want)
}

fn held(rt: &impl Abort, alloc: Global, fat: &Fat, start: u32, len: u32) -> Vec<u8> {
    fat.held(alloc, start, len).expect(rt, "memory")
}

/// Whether the chain from a sector on is of these sectors, and has these bytes.
fn joins(
    rt: &impl Abort,
    alloc: Global,
    fat: &mut Fat,
    start: u32,
    bytes: &str,
    sectors: &str,
) -> bool {
    let chain = fat.chain(alloc, start).expect(rt, "a chain");
    let joined = fat.join(alloc, &chain).expect(rt, "memory");
    are_numbers(rt, alloc, &chain, sectors) && are_spelled(rt, alloc, &joined, bytes)
}

fn run_is(rt: &impl Abort, alloc: Global, fat: &Fat, sectors: &str, want: &str) -> bool {
    is_run(rt, alloc, fat.run(&numbers(rt, alloc, sectors)), want)
}

fn is_run(rt: &impl Abort, alloc: Global, run: Option<&[u8]>, want: &str) -> bool {
    match run {
        Some(bytes) => are_spelled(rt, alloc, bytes, want),
        None => want == "none",
    }
}

/// The same of a file itself.
#[test]
fn sectors_in_a_row_are_lent(rt: HostRuntime) {
    let file = file_of(&rt, rt.alloc(), LINKED);
    let image = Image::Whole(&file);
    assert!(rt; is_run(&rt, rt.alloc(), image.run(&[6, 7]), "512*06,512*07"));
    assert!(rt; is_run(&rt, rt.alloc(), image.run(&[1, 8]), "none"));
}

#[test]
fn chains_are_followed(rt: HostRuntime) {
    let file = file_of(&rt, rt.alloc(), LINKED);
    let mut fat = load(&rt, rt.alloc(), &header_of(&rt, &file), &file);
    play(&rt, rt.alloc(), &mut fat, LINKED_CALLS);
}

/// Whether a file has no table, for this fault.
fn table_is_refused(alloc: Global, header: &Header, file: &[u8], want: &str) -> bool {
    match Fat::load(alloc, header, Image::Whole(file)) {
        Ok(_) => false,
        Err(fault) => fault.name() == want,
    }
}

/// Four sectors of the DIFAT are counted, and the first isn't there.
#[test]
fn a_missing_difat_sector_is_told(rt: HostRuntime) {
    let mut file = file_of(&rt, rt.alloc(), LINKED);
    put(&mut file, 72, &[4]);
    let header = header_of(&rt, &file);
    assert!(rt; table_is_refused(rt.alloc(), &header, &file, "OutOfFile"));
}

/// Checks what the mini stream of a table tells.
fn play_mini(rt: &impl Abort, alloc: Global, fat: &mut Fat, header: &Header) {
    let mut mini = fat.mini(alloc, header, 2, 640).expect(rt, "a mini stream");
    play(rt, alloc, &mut mini, STREAM_CALLS);
}

#[test]
fn a_mini_stream_is_read(rt: HostRuntime) {
    let file = file_of(&rt, rt.alloc(), MINI);
    let header = header_of(&rt, &file);
    let mut fat = load(&rt, rt.alloc(), &header, &file);
    play(&rt, rt.alloc(), &mut fat, MINI_CALLS);
    play_mini(&rt, rt.alloc(), &mut fat, &header);
    play(&rt, rt.alloc(), &mut fat, LATER_CALLS);
}

/// Whether a header with a byte changed is refused so.
fn refuses(rt: &impl Abort, alloc: Global, row: &str) -> bool {
    let mut words = row.split_whitespace();
    let at = number(word(&mut words));
    let bytes = changed(rt, alloc, at, word(&mut words));
    let fault = word(&mut words);
    header_is_refused(&bytes, fault, number(word(&mut words)))
}

fn changed(rt: &impl Abort, alloc: Global, at: u32, byte: &str) -> Vec<u8> {
    let mut bytes = spelled(rt, alloc, HEADER);
    put(&mut bytes, at, &spelled(rt, alloc, byte));
    bytes
}

fn put(bytes: &mut [u8], at: u32, changed: &[u8]) {
    if let (Some(place), Some(byte)) = (bytes.get_mut(at as usize), changed.first()) {
        *place = *byte;
    }
}

fn header_is_refused(bytes: &[u8], name: &str, field: u32) -> bool {
    match Header::read(bytes) {
        Ok(_) => false,
        Err(ChainFault::Unsupported(at)) => u32::from(at) == field,
        Err(fault) => fault.name() == name,
    }
}

fn is_sample(header: &Header) -> bool {
    header.fat_count() == 1
        && header.fat().len() == 1
        && header.fat().first().copied() == Some(0)
        && header.first_directory() == 1
        && header.first_mini_fat() == 5
        && header.mini_fat_count() == 1
}

fn is_written(rt: &impl Abort, alloc: Global) -> bool {
    let made = Header::new(&[0], &[], 1, 5, 1).expect(rt, "one sector");
    are_spelled(rt, alloc, &made.write(), HEADER)
}

#[test]
fn headers_are_read_and_written(rt: HostRuntime) {
    let bytes = spelled(&rt, rt.alloc(), HEADER);
    assert!(rt; is_sample(&header_of(&rt, &bytes)));
    assert!(rt; is_written(&rt, rt.alloc()));
}

#[test]
fn headers_are_refused(rt: HostRuntime) {
    for row in FAULTS.split('\n') {
        assert!(rt; refuses(&rt, rt.alloc(), row), "{row}");
    }
    assert!(rt; header_is_refused(&spelled(&rt, rt.alloc(), "511*d0"), "Truncated", 0));
}
