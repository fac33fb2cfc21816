// How a macro block moves: its vectors as they are sent, and the prediction of each of its blocks by them.
#![tactic(auto)]

ghost use Rattle.std.specs.Prelude.{◌≡◌, ◌+◌, ◌-◌, ◌<◌, ◌≤◌, ◌^◌, ◌+ℤ◌, nat_abs, length};
ghost use Rattle.bitstream.specs.Bits.{longest};
ghost use Rattle.numeric.specs.Divide.{round_over};
ghost use Rattle.geometry.specs.Order.{at};
ghost use Rattle.numeric.specs.Sign.{with_sign};
ghost use Rattle.motion_reader.specs.Component.{added, shortest, variable, by_code, component, vector, as_component, as_vector};
ghost use Rattle.motion.specs.Kept.{RowInRange, MotionInRange};
ghost use Rattle.motion_reader.specs.Motion.{motion, moving, moving_golden, if_coded, row, moving_four, mean_of_two, mean_of_four, luma_vector, chroma_vector, four_vector, prediction_of, as_row, as_moved};

use bitstream::Field;
use block_record::{Prediction, Vector};
use geometry::PixelFormat;
use motion::{Motion, Moved, Row};

const WIDTH: [u32; 5] = [0, 0, 2, 3, 4];

const LEAST: [u32; 5] = [2, 3, 4, 8, 16];

// A component and the place behind it, or the number of the refusal and its place; likewise the enums below.
#[derive(Clone, Copy)]
enum ComponentRead {
    Got(i32, usize),
    Refused(u32, usize),
}

#[derive(Clone, Copy)]
enum VectorRead {
    Got(Vector, usize),
    Refused(u32, usize),
}

#[derive(Clone, Copy)]
enum RowRead {
    Got(Row, usize),
    Refused(u32, usize),
}

#[derive(Clone, Copy)]
pub enum MovedRead {
    Got(Moved, usize),
    Refused(u32, usize),
}

fn signed_value(sign: u32, magnitude: u32) -> i32
    requires { magnitude ≤ 31 }
    ensures { result ≡ with_sign sign magnitude }
{
    let n = magnitude as i32;
    if sign == 1 {
        return 0 - n;
    }
    n
}

// The component of the codes 000, 001 and 010.
fn shortest_value(t: u32) -> i32
    ensures { result ≡ shortest t }
{
    if t == 0 {
        return 0;
    }
    signed_value(t - 1, 1)
}

// A field of `bits` bits added to `base`, and a sign bit.
fn read_added(packet: &[u8], at: usize, bits: u32, base: u32) -> ComponentRead
    requires { (length packet.now ≤ longest) × (bits ≤ 5) × (base + 2 ^ bits ≤ 32) }
    ensures { result ≡ as_component (added bits base packet.now at) }
{
    let more = bitstream::read(packet, at, bits as usize);
    match more {
        Field::Refused(k, e) => ComponentRead::Refused(k, e),
        Field::Got(v, next) => {
            let last = bitstream::read(packet, next, 1);
            match last {
                Field::Refused(k, e) => ComponentRead::Refused(k, e),
                Field::Got(s, end) => ComponentRead::Got(signed_value(s, base + v), end),
            }
        }
    }
}

fn read_variable(packet: &[u8], at: usize) -> ComponentRead
    requires { length packet.now ≤ longest }
    ensures { result ≡ as_component (variable packet.now at) }
{
    let prefix = bitstream::read(packet, at, 3);
    match prefix {
        Field::Refused(k, e) => ComponentRead::Refused(k, e),
        Field::Got(t, next) => {
            if t < 3 {
                return ComponentRead::Got(shortest_value(t), next);
            }
            let line = (t - 3) as usize;
            read_added(packet, next, WIDTH[line], LEAST[line])
        }
    }
}

fn read_by_code(packet: &[u8], at: usize, code: u32) -> ComponentRead
    requires { length packet.now ≤ longest }
    ensures { result ≡ as_component (by_code code packet.now at) }
{
    if code == 0 {
        return read_variable(packet, at);
    }
    read_added(packet, at, 5, 0)
}

// A component; one that is cut is reported at its first bit.
fn read_component(packet: &[u8], at: usize, code: u32) -> ComponentRead
    requires { length packet.now ≤ longest }
    ensures { result ≡ as_component (component code packet.now at) }
{
    let one = read_by_code(packet, at, code);
    match one {
        ComponentRead::Refused(k, _) => ComponentRead::Refused(k, at),
        ComponentRead::Got(_, _) => one,
    }
}

fn read_vector(packet: &[u8], at: usize, code: u32) -> VectorRead
    requires { length packet.now ≤ longest }
    ensures { result ≡ as_vector (vector code packet.now at) }
{
    let first = read_component(packet, at, code);
    match first {
        ComponentRead::Refused(k, e) => VectorRead::Refused(k, e),
        ComponentRead::Got(x, next) => {
            let second = read_component(packet, next, code);
            match second {
                ComponentRead::Refused(k, e) => VectorRead::Refused(k, e),
                ComponentRead::Got(y, end) => VectorRead::Got(Vector { x: x, y: y }, end),
            }
        }
    }
}

// A vector for a coded block, else zero.
fn read_if_coded(packet: &[u8], at: usize, code: u32, coded: bool) -> VectorRead
    requires { length packet.now ≤ longest }
    ensures { result ≡ as_vector (if_coded code coded packet.now at) }
{
    if coded {
        return read_vector(packet, at, code);
    }
    VectorRead::Got(motion::zero_vector(), at)
}

fn read_row(packet: &[u8], at: usize, code: u32, left: bool, right: bool) -> RowRead
    requires { length packet.now ≤ longest }
    ensures { result ≡ as_row (row code left right packet.now at) }
{
    let first = read_if_coded(packet, at, code, left);
    match first {
        VectorRead::Refused(k, e) => RowRead::Refused(k, e),
        VectorRead::Got(v, next) => {
            let second = read_if_coded(packet, next, code, right);
            match second {
                VectorRead::Refused(k, e) => RowRead::Refused(k, e),
                VectorRead::Got(u, end) => RowRead::Got(Row { left: v, right: u }, end),
            }
        }
    }
}

// MV: a vector, which is kept.
fn read_moving(packet: &[u8], at: usize, code: u32, last: Vector) -> MovedRead
    requires { length packet.now ≤ longest }
    ensures { result ≡ as_moved (moving code last packet.now at) }
{
    let one = read_vector(packet, at, code);
    match one {
        VectorRead::Refused(k, e) => MovedRead::Refused(k, e),
        VectorRead::Got(v, next) => MovedRead::Got(
            motion::one_prediction(Prediction::Previous(v), v, last),
            next,
        ),
    }
}

// GOLDEN_MV: a vector, which is not kept.
fn read_moving_golden(packet: &[u8], at: usize, code: u32, last: Vector, last2: Vector) -> MovedRead
    requires { length packet.now ≤ longest }
    ensures { result ≡ as_moved (moving_golden code last last2 packet.now at) }
{
    let one = read_vector(packet, at, code);
    match one {
        VectorRead::Refused(k, e) => MovedRead::Refused(k, e),
        VectorRead::Got(v, next) => MovedRead::Got(
            motion::one_prediction(Prediction::Golden(v), last, last2),
            next,
        ),
    }
}

// FOUR: a vector for each coded luma block, in the order A, B, C, D; the last one is kept.
fn read_moving_four(
    packet: &[u8],
    at: usize,
    code: u32,
    a: bool,
    b: bool,
    c: bool,
    d: bool,
    last: Vector,
) -> MovedRead
    requires { length packet.now ≤ longest }
    ensures { result ≡ as_moved (moving_four code a b c d last packet.now at) }
{
    let first = read_row(packet, at, code, a, b);
    match first {
        RowRead::Refused(k, e) => MovedRead::Refused(k, e),
        RowRead::Got(lower, next) => {
            let second = read_row(packet, next, code, c, d);
            match second {
                RowRead::Refused(k, e) => MovedRead::Refused(k, e),
                RowRead::Got(upper, end) => {
                    let newest = motion::last_read(b, c, d, lower, upper);
                    MovedRead::Got(
                        Moved {
                            motion: Motion::Four(lower, upper),
                            last: newest,
                            last2: last,
                        },
                        end,
                    )
                }
            }
        }
    }
}

// A macro block of a mode; a, b, c, d say which of its luma blocks are coded.
pub fn read_motion(
    packet: &[u8],
    at: usize,
    code: u32,
    mode: u8,
    a: bool,
    b: bool,
    c: bool,
    d: bool,
    last: Vector,
    last2: Vector,
) -> MovedRead
    requires { length packet.now ≤ longest }
    ensures { result ≡ as_moved (motion code mode a b c d last last2 packet.now at) }
{
    if mode == 2 {
        return read_moving(packet, at, code, last);
    }
    if mode == 6 {
        return read_moving_golden(packet, at, code, last, last2);
    }
    if mode == 7 {
        return read_moving_four(packet, at, code, a, b, c, d, last);
    }
    MovedRead::Got(motion::still_motion(mode, last, last2), at)
}

fn mean_2(a: i32, b: i32) -> i32
    requires { (nat_abs a ≤ 31) × (nat_abs b ≤ 31) }
    ensures { result ≡ round_over 2 (a +ℤ b) }
{
    numeric::round_over_2(a + b)
}

fn mean_4(a: i32, b: i32, c: i32, d: i32) -> i32
    requires { (nat_abs a ≤ 31) × (nat_abs b ≤ 31) × (nat_abs c ≤ 31) × (nat_abs d ≤ 31) }
    ensures { result ≡ round_over 4 ((a +ℤ b) +ℤ (c +ℤ d)) }
{
    numeric::round_over_4((a + b) + (c + d))
}

// The rounded mean of a row.
fn mean_of_two(r: Row) -> Vector
    requires { RowInRange r }
    ensures { result ≡ mean_of_two r }
{
    let a = r.left;
    let b = r.right;
    Vector {
        x: mean_2(a.x, b.x),
        y: mean_2(a.y, b.y),
    }
}

// The rounded mean of two rows.
fn mean_of_four(l: Row, u: Row) -> Vector
    requires { RowInRange l × RowInRange u }
    ensures { result ≡ mean_of_four l u }
{
    let a = l.left;
    let b = l.right;
    let c = u.left;
    let d = u.right;
    Vector {
        x: mean_4(a.x, b.x, c.x, d.x),
        y: mean_4(a.y, b.y, c.y, d.y),
    }
}

// The vector of luma block j: A, B, C, D.
fn luma_vector(l: Row, u: Row, j: u64) -> Vector
    requires { j < 4 }
    ensures { result ≡ luma_vector l u j }
{
    if j == 0 {
        return l.left;
    }
    if j == 1 {
        return l.right;
    }
    if j == 2 {
        return u.left;
    }
    u.right
}

// The vector of chroma block k of a macro block with four vectors.
fn chroma_vector(format: PixelFormat, l: Row, u: Row, k: u64) -> Vector
    requires { RowInRange l × RowInRange u }
    ensures { result ≡ chroma_vector format l u k }
{
    match format {
        PixelFormat::Chroma420 => mean_of_four(l, u),
        PixelFormat::Chroma422 => {
            if k % 2 == 0 {
                return mean_of_two(l);
            }
            mean_of_two(u)
        }
        PixelFormat::Chroma444 => luma_vector(l, u, k % 4),
    }
}

fn four_vector(format: PixelFormat, l: Row, u: Row, k: u64) -> Vector
    requires { RowInRange l × RowInRange u }
    ensures { result ≡ four_vector format l u k }
{
    if k < 4 {
        return luma_vector(l, u, k);
    }
    chroma_vector(format, l, u, k)
}

// The prediction of block k of a macro block.
pub fn prediction_of(format: PixelFormat, m: Motion, k: u64) -> Prediction
    requires { MotionInRange m }
    ensures { result ≡ prediction_of format m k }
{
    match m {
        Motion::One(p) => p,
        Motion::Four(l, u) => Prediction::Previous(four_vector(format, l, u, k)),
    }
}
