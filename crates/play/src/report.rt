// What is printed: answers, and the hashes of frames. Document 01 has no rule for it, and no clause knows what reaches the standard output,
// so a contract here says of the text nothing and of a lent slice that it is as it was; `rt ci` holds the text to `stdout`.
ghost use Rattle.std.specs.Prelude.{◌≡◌};

use frame_header::{Header, Kind};
use std::io;

pub fn print(rt: &impl Print, text: &str) -> io::Result<()>
    ensures { text.now ≡ text.now }
{
    rt.print(text)
}

fn print_number(rt: &impl Print, n: u64) -> io::Result<()> {
    rt.print(n)
}

// A refusal's number and its bit place.
pub fn print_refused(rt: &impl Print, k: u32, place: usize) -> io::Result<()>
    ensures { Unit {0} }
{
    println!(rt; "refused {k} at {place}")
}

fn print_kind(rt: &impl Print, kind: Kind) -> io::Result<()> {
    match kind {
        Kind::Intra => print(rt, "intra "),
        Kind::Inter => print(rt, "inter "),
        Kind::Repeat => print(rt, "repeat -"),
    }
}

fn print_qis(rt: &impl Print, qis: [u8; 3], count: u8) -> io::Result<()> {
    if 0 < count {
        print_number(rt, qis[0] as u64)?;
    }
    if 1 < count {
        print(rt, ",")?;
        print_number(rt, qis[1] as u64)?;
    }
    if 2 < count {
        print(rt, ",")?;
        print_number(rt, qis[2] as u64)?;
    }
    Ok(())
}

pub fn print_frame_number(rt: &impl Print, n: u64) -> io::Result<()>
    ensures { Unit {0} }
{
    print!(rt; "frame {n} ")
}

pub fn print_frame(rt: &impl Print, header: Header, tokens: usize, new: &[u8]) -> io::Result<()>
    ensures { new.now ≡ new.now }
{
    let kind = header.kind;
    let qis = header.qis;
    print_kind(rt, kind)?;
    print_qis(rt, qis, header.count)?;
    let hash = player::hash(new);
    println!(rt; " {hash:016x} {tokens}")
}
