// Decodes the packet files that its arguments name. For each packet it prints the answer, and for a frame its hash.
#![tactic(auto)]

mod report;

ghost use Rattle.std.specs.Prelude.{◌≡◌, ◌≤◌, ◌<◌, length, take, IfOk};

use headers::{IdentificationAnswer, Session};
use reading::{FrameAnswer, Verdict};
use report::{print, print_frame, print_frame_number, print_refused};
use setup::SetupAnswer;
use std::fs::File;
use std::io;
use std::io::Read;
use std::rt::{Env, Files};
use theora::WorkAnswer;
use work_memory::WorkLengths;

// Memory is lent for frames of up to 96 blocks.
const BLOCKS: usize = 96;

const SAMPLES: usize = 6144;

// The longest packet that is read.
const BUFFER: usize = 65536;

// A packet of a file: so many bytes at the start of a buffer.
#[derive(Clone, Copy)]
struct Packet {
    is_whole: bool,
    length: usize,
}

fn wide(byte: u8) -> usize
    ensures { result < 256 }
{
    byte as usize
}

// The least significant byte is the first.
fn length_of(head: [u8; 4]) -> usize {
    wide(head[0]) + 256 * wide(head[1]) + 65536 * wide(head[2]) + 16777216 * wide(head[3])
}

// Reads until the buffer is full or the file ends: so many bytes at the start of the buffer.
fn read_full(file: &mut impl Read, buffer: &mut [u8]) -> io::Result<usize>
    ensures { IfOk result (λ n. n ≤ length buffer.new) }
{
    let size = buffer.len();
    let mut done = 0;
    for _ in 0..u64::MAX {
        if size <= done {
            break;
        }
        let got = file.read(&mut buffer[done..])?;
        if got == 0 {
            break;
        }
        done += got;
    }
    Ok(done)
}

// The next packet of a packet file: its length in 4 bytes, and its bytes. The only error is the file's; after it the buffer is as long as it was, and what it holds is open.
fn read_packet(file: &mut impl Read, buffer: &mut [u8]) -> io::Result<Packet>
    ensures packet { IfOk result (λ p. (p.length ≤ length buffer.new) × (p.length ≡ length (take p.length buffer.new))) }
    ensures same_length { length buffer.new ≡ length buffer.old }
{
    let none = Packet {
        is_whole: false,
        length: 0,
    };
    let mut head = [0u8; 4];
    if read_full(file, &mut head)? < 4 {
        return Ok(none);
    }
    let length = length_of(head);
    if buffer.len() < length {
        return Ok(none);
    }
    let got = read_full(file, &mut buffer[..length])?;
    Ok(Packet {
        is_whole: got == length,
        length: got,
    })
}

// A published length, or 0 where we have no such memory: the frame call then refuses by 1.
fn lent(published: u64) -> usize
    ensures { result ≤ 96 }
{
    if published <= 96 {
        published as usize
    } else {
        0
    }
}

// The frame call, with work memory that holds anything.
fn decode(
    l: WorkLengths,
    s: Session,
    packet: &[u8],
    table: &[u8],
    golden: &[u8],
    previous: &[u8],
    new: &mut [u8],
) -> FrameAnswer {
    let n = lent(l.records);
    let samples = 64 * n;
    let k = lent(l.supers);
    let m = lent(l.modes);
    let mut records = [1u32; BLOCKS];
    let mut coded = [2u64; BLOCKS];
    let mut coefs = [3i16; SAMPLES];
    let mut dc = [4i16; BLOCKS];
    let mut lasts = [5u8; BLOCKS];
    let mut flags = [6u8; BLOCKS];
    let mut bits = [7u8; BLOCKS];
    let mut supers = [8u8; BLOCKS];
    let mut modes = [9u8; BLOCKS];
    let mut active = [10u64; BLOCKS];
    theora::frame(
        s,
        packet,
        table,
        &mut records[..n],
        &mut coded[..n],
        &mut coefs[..samples],
        &mut dc[..n],
        &mut lasts[..n],
        &mut flags[..n],
        &mut bits[..n],
        &mut supers[..k],
        &mut modes[..m],
        &mut active[..n],
        golden,
        previous,
        new,
    )
}

// A packet's answer is printed and its frame handed on. The session is that for the next packet.
fn play_packet(
    rt: &impl Print,
    number: u64,
    l: WorkLengths,
    s: Session,
    packet: &[u8],
    table: &[u8],
    golden: &mut [u8],
    previous: &mut [u8],
    new: &mut [u8],
) -> io::Result<Session>
    requires { (length golden.old ≡ length new.old) × (length previous.old ≡ length new.old) }
{
    print_frame_number(rt, number)?;
    let answer = decode(l, s, packet, table, golden, previous, new);
    let verdict = answer.verdict;
    let header = answer.header;
    let next = answer.session;
    match verdict {
        Verdict::Refused(k, place) => {
            print_refused(rt, k, place)?;
            Ok(next)
        }
        Verdict::Accepted(tokens) => {
            let kind = header.kind;
            print_frame(rt, header, tokens, new)?;
            player::hand_on(kind, golden, previous, new);
            Ok(next)
        }
    }
}

// The frame packets, to the file's end or a million of them.
fn play_frames(
    rt: &impl Print,
    file: &mut impl Read,
    l: WorkLengths,
    s: Session,
    buffer: &mut [u8],
    table: &[u8],
) -> io::Result<()> {
    let n = 64 * lent(l.records);
    let mut golden = [0u8; SAMPLES];
    let mut previous = [0u8; SAMPLES];
    let mut new = [0u8; SAMPLES];
    let mut session = s;
    for number in 3..1000000 {
        let packet = read_packet(file, buffer)?;
        let end = packet.length;
        if !packet.is_whole {
            return Ok(());
        }
        session = play_packet(
            rt,
            number,
            l,
            session,
            &buffer[..end],
            table,
            &mut golden[..n],
            &mut previous[..n],
            &mut new[..n],
        )?;
    }
    Ok(())
}

// The setup header is the packet behind the comment header.
fn play_setup(
    rt: &impl Print,
    file: &mut impl Read,
    buffer: &mut [u8],
    table: &mut [u8],
) -> io::Result<()> {
    read_packet(file, buffer)?;
    let packet = read_packet(file, buffer)?;
    let end = packet.length;
    print(rt, "header 2 ")?;
    match theora::setup(&buffer[..end], table) {
        SetupAnswer::Accepted => print(rt, "accepted\n"),
        SetupAnswer::Refused(k, place) => print_refused(rt, k, place),
    }
}

// The rest of a stream after its identification header.
fn play_stream(
    rt: &impl Print,
    file: &mut impl Read,
    s: Session,
    buffer: &mut [u8],
) -> io::Result<()> {
    let mut table = [0u8; setup::TABLE_BYTES];
    play_setup(rt, file, buffer, &mut table)?;
    if let WorkAnswer::Is(l) = theora::work_lengths(s) {
        play_frames(rt, file, l, s, buffer, &table)?;
    }
    Ok(())
}

fn play(rt: &impl Print, file: &mut impl Read, buffer: &mut [u8]) -> io::Result<()> {
    let packet = read_packet(file, buffer)?;
    let end = packet.length;
    print(rt, "header 0 ")?;
    match theora::identification(&buffer[..end]) {
        IdentificationAnswer::Refused(k, place) => print_refused(rt, k, place),
        IdentificationAnswer::Accepted(s) => {
            print(rt, "accepted\n")?;
            play_stream(rt, file, s, buffer)
        }
    }
}

// A file that cannot be opened is named on the standard error, and the next one follows.
fn play_file(rt: &(impl Print + Eprint + Files), name: &str) -> io::Result<()> {
    println!(rt; "{name}")?;
    match File::open(rt, name) {
        Ok(mut file) => play(rt, &mut file, &mut [0u8; BUFFER]),
        Err(error) => eprintln!(rt; "{name}: {error}"),
    }
}

fn main(rt: HostRuntime) -> io::Result<()> {
    for name in std::env::args(&rt)?.skip(1) {
        play_file(&rt, &name)?;
    }
    Ok(())
}
