// Eight numbers that are transformed together: a row or a column of a block, found in a slice and put back.
#![tactic(auto)]

ghost use Rattle.std.specs.Prelude.{◌≡◌, ◌+◌, ◌*◌, ◌<◌, ◌+ℤ◌, ◌-ℤ◌, length};
ghost use Rattle.numeric.specs.Cut.{cut};
ghost use Rattle.lines.specs.Line.{upper_product, first_terms, last_terms, outputs, transformed_line};
ghost use Rattle.lines.specs.Places.{line_at, put_line, transform_line};

const C1: u16 = 64277;

const C2: u16 = 60547;

const C3: u16 = 54491;

const C4: u16 = 46341;

const C5: u16 = 36410;

const C6: u16 = 25080;

const C7: u16 = 12785;

// Eight numbers that are transformed together: a row or a column of a block.
#[derive(Clone, Copy, PartialEq)]
pub struct Line {
    pub x0: i16,
    pub x1: i16,
    pub x2: i16,
    pub x3: i16,
    pub x4: i16,
    pub x5: i16,
    pub x6: i16,
    pub x7: i16,
}

// Four terms of a line's outputs, cut to 16 bits.
#[derive(Clone, Copy)]
pub struct Terms {
    pub t0: i16,
    pub t1: i16,
    pub t2: i16,
    pub t3: i16,
}

// Lines are computed in 16 bits throughout, and a factor from 32768 on is 65536 less: then eight columns go together, in vectors of 16 bits.
fn upper_product(c: u16, x: i16) -> i16
    ensures { result ≡ upper_product c x }
{
    let w = x as i32;
    if c < 32768 {
        return ((w * c as i32) >> 16) as i16;
    }
    (((w * (c as i32 - 65536)) >> 16) + w) as i16
}

fn weighted_sum(c: u16, x: i16, d: u16, y: i16) -> i16
    ensures { result ≡ cut (upper_product c x +ℤ upper_product d y) }
{
    upper_product(c, x).wrapping_add(upper_product(d, y))
}

fn weighted_difference(c: u16, x: i16, d: u16, y: i16) -> i16
    ensures { result ≡ cut (upper_product c x -ℤ upper_product d y) }
{
    upper_product(c, x).wrapping_sub(upper_product(d, y))
}

// What outputs 0 to 3, and 7 to 4, begin with.
fn first_terms(l: Line) -> Terms
    ensures { (result.t0 ≡ cut (first_terms l).t0) × (result.t1 ≡ cut (first_terms l).t1) × (result.t2 ≡ cut (first_terms l).t2) × (result.t3 ≡ cut (first_terms l).t3) }
{
    let a = upper_product(C4, l.x0.wrapping_add(l.x4));
    let b = upper_product(C4, l.x0.wrapping_sub(l.x4));
    let c = weighted_difference(C6, l.x2, C2, l.x6);
    let d = weighted_sum(C2, l.x2, C6, l.x6);
    Terms {
        t0: a.wrapping_add(d),
        t1: b.wrapping_add(c),
        t2: b.wrapping_sub(c),
        t3: a.wrapping_sub(d),
    }
}

// What is added in outputs 0 to 3, and subtracted in 7 to 4.
fn last_terms(l: Line) -> Terms
    ensures { (result.t0 ≡ cut (last_terms l).t0) × (result.t1 ≡ cut (last_terms l).t1) × (result.t2 ≡ cut (last_terms l).t2) × (result.t3 ≡ cut (last_terms l).t3) }
{
    let e = weighted_difference(C7, l.x1, C1, l.x7);
    let k = weighted_difference(C3, l.x5, C5, l.x3);
    let g = weighted_sum(C5, l.x5, C3, l.x3);
    let h = weighted_sum(C1, l.x1, C7, l.x7);
    let k4 = upper_product(C4, e.wrapping_sub(k));
    let g4 = upper_product(C4, h.wrapping_sub(g));
    Terms {
        t0: h.wrapping_add(g),
        t1: g4.wrapping_add(k4),
        t2: g4.wrapping_sub(k4),
        t3: e.wrapping_add(k),
    }
}

// The outputs: the first terms with the last ones added, and the same with them subtracted.
#[tactic(auto, using(crate::proofs::Low16::add_cut, crate::proofs::Low16::sub_cut))]
fn outputs(f: Terms, g: Terms) -> Line
    ensures { result ≡ outputs f g }
{
    Line {
        x0: f.t0.wrapping_add(g.t0),
        x1: f.t1.wrapping_add(g.t1),
        x2: f.t2.wrapping_add(g.t2),
        x3: f.t3.wrapping_add(g.t3),
        x4: f.t3.wrapping_sub(g.t3),
        x5: f.t2.wrapping_sub(g.t2),
        x6: f.t1.wrapping_sub(g.t1),
        x7: f.t0.wrapping_sub(g.t0),
    }
}

pub fn transformed_line(l: Line) -> Line
    ensures { result ≡ transformed_line l }
{
    outputs(first_terms(l), last_terms(l))
}

// The line that starts at `at` and has every `step`th number.
#[tactic(auto, unfolding(crate::specs::Places::line_at))]
pub fn line_at(s: &[i16], at: usize, step: usize) -> Line
    requires { at + step * 7 < length s.now }
    ensures { result ≡ line_at s.now at step }
{
    Line {
        x0: s[at],
        x1: s[at + step],
        x2: s[at + step * 2],
        x3: s[at + step * 3],
        x4: s[at + step * 4],
        x5: s[at + step * 5],
        x6: s[at + step * 6],
        x7: s[at + step * 7],
    }
}

#[tactic(auto, unfolding(crate::specs::Places::put_line))]
pub fn put_line(s: &mut [i16], at: usize, step: usize, l: Line)
    requires { at + step * 7 < length s.old }
    ensures { s.new ≡ put_line s.old at step l }
{
    s[at] = l.x0;
    s[at + step] = l.x1;
    s[at + step * 2] = l.x2;
    s[at + step * 3] = l.x3;
    s[at + step * 4] = l.x4;
    s[at + step * 5] = l.x5;
    s[at + step * 6] = l.x6;
    s[at + step * 7] = l.x7;
}

// One line of the transform, in place.
pub fn transform_line(s: &mut [i16], at: usize, step: usize)
    requires { at + step * 7 < length s.old }
    ensures { s.new ≡ transform_line s.old at step }
{
    let l = transformed_line(line_at(s, at, step));
    put_line(s, at, step, l);
}
