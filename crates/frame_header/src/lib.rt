// The header of a frame packet: what kind of frame it is, and the list of its qi.
#![tactic(auto)]

ghost use Rattle.std.specs.Prelude.{◌≡◌, [], ◌∷◌, ◌≤◌, ◌<◌, length};
ghost use Rattle.bitstream.specs.Bits.{longest};
ghost use Rattle.bitstream.specs.Reading.{refused};
ghost use Rattle.frame_header.specs.Header.{more_qis, qi_list, kind_of, frame_header};
ghost use Rattle.frame_header.specs.Answer.{as_qis, as_read};

use bitstream::{End, Field};

#[derive(Clone, Copy)]
pub enum Kind {
    Intra,
    Inter,
    Repeat,
}

// What an accepted frame answers: its kind, and its list of qi, the first `count` of the three; the others are 0. A repeat has none.
#[derive(Clone, Copy)]
pub struct Header {
    pub kind: Kind,
    pub qis: [u8; 3],
    pub count: u8,
}

// A header and the place behind it, or a refusal, beside which stands the header of a repeat.
#[derive(Clone, Copy)]
pub struct HeaderRead {
    pub done: End,
    pub header: Header,
}

// A list of qi and the place behind it, or a refusal, beside which stands an empty list.
#[derive(Clone, Copy)]
struct QisRead {
    done: End,
    qis: [u8; 3],
    count: u8,
}

fn no_qis(k: u32, e: usize) -> QisRead
    ensures { result ≡ as_qis (refused k e) }
{
    QisRead {
        done: End::Refused(k, e),
        qis: [0, 0, 0],
        count: 0,
    }
}

// The first qi is there; up to two more, each announced by a bit.
fn read_more(packet: &[u8], at: usize, first: u8) -> QisRead
    requires { length packet.now ≤ longest }
    ensures { result ≡ as_qis (more_qis 2 (first ∷ []) packet.now at) }
{
    let mut qis = [first, 0, 0];
    let mut count: usize = 1;
    let mut place = at;
    while count < 3 {
        let more = bitstream::read(packet, place, 1);
        match more {
            Field::Refused(k, e) => {
                return no_qis(k, e);
            }
            Field::Got(b, next) => {
                if b == 0 {
                    return QisRead {
                        done: End::At(next),
                        qis: qis,
                        count: count as u8,
                    };
                }
                let qi = bitstream::read(packet, next, 6);
                match qi {
                    Field::Refused(k, e) => {
                        return no_qis(k, e);
                    }
                    Field::Got(q, end) => {
                        qis[count] = q as u8;
                        count += 1;
                        place = end;
                    }
                }
            }
        }
    }
    QisRead {
        done: End::At(place),
        qis: qis,
        count: count as u8,
    }
}

// One to three qi.
fn read_qis(packet: &[u8], at: usize) -> QisRead
    requires { length packet.now ≤ longest }
    ensures { result ≡ as_qis (qi_list packet.now at) }
{
    let first = bitstream::read(packet, at, 6);
    match first {
        Field::Refused(k, e) => no_qis(k, e),
        Field::Got(q, next) => read_more(packet, next, q as u8),
    }
}

fn kind_of(kind: u32) -> Kind
    ensures { result ≡ kind_of kind }
{
    if kind == 0 {
        return Kind::Intra;
    }
    Kind::Inter
}

fn no_header(k: u32, e: usize) -> HeaderRead
    ensures { result ≡ as_read (refused k e) }
{
    HeaderRead {
        done: End::Refused(k, e),
        header: Header {
            kind: Kind::Repeat,
            qis: [0, 0, 0],
            count: 0,
        },
    }
}

// The header of a frame packet that is not empty. An empty one is a repeat, which is the caller's.
pub fn read_header(packet: &[u8], references: bool) -> HeaderRead
    requires { length packet.now ≤ longest }
    ensures { result ≡ as_read (frame_header references packet.now 0) }
{
    let first = frame_type::read_type(packet, 0, references);
    match first {
        Field::Refused(k, e) => no_header(k, e),
        Field::Got(t, next) => {
            let list = read_qis(packet, next);
            let done = list.done;
            match done {
                End::Refused(k, e) => no_header(k, e),
                End::At(place) => {
                    let last = frame_type::read_reserved(packet, place, t);
                    match last {
                        Field::Refused(k, e) => no_header(k, e),
                        Field::Got(_, end) => {
                            let kind = kind_of(t);
                            let qis = list.qis;
                            let count = list.count;
                            HeaderRead {
                                done: End::At(end),
                                header: Header {
                                    kind: kind,
                                    qis: qis,
                                    count: count,
                                },
                            }
                        }
                    }
                }
            }
        }
    }
}
