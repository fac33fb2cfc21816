// The settings of the scoring scripts as key=value lines, written and read.
#![tactic(auto)]

ghost use Rattle.std.specs.Prelude.{◌≡◌, true, [], ◌+◌, ◌^◌, ◌≤◌, ◌<◌, length};
ghost use Rattle.output.specs.Output.{spliced, left_by, as_written};
ghost use Rattle.settings.specs.Settings.{settings_fit, holds, line, first_lines, text_of, said_in, is_text_of, text_found, read, as_found, as_loaded, settings_text};

use output::Written;

#[derive(Clone, Copy)]
pub struct Settings {
    pub tile: u64,
    pub shot_first: u64,
    pub shot_last: u64,
    pub plane: u64,
}

#[derive(Clone, Copy)]
pub enum Verdict {
    Accepted,
    Refused(u32, usize),
}

// A verdict, and the settings in use behind it.
#[derive(Clone, Copy)]
pub struct Loaded {
    pub verdict: Verdict,
    pub settings: Settings,
}

// What a text says, or the number of the refusal.
#[derive(Clone, Copy)]
enum Found {
    Is(Settings),
    Not(u32),
}

// Whether settings are in their ranges: else 20.
pub fn settings_fit(s: Settings) -> bool
    ensures { result ≡ settings_fit s }
{
    ((s.tile == 8) | (s.tile == 16) | (s.tile == 32))
        & ((s.shot_last <= 999999) & ((s.shot_first <= s.shot_last) & (s.plane <= 2)))
}

// Whether a version can hold these settings.
fn version_holds(version: u64, s: Settings) -> bool
    ensures { result ≡ holds version s }
{
    ((version == 1) & (s.plane == 0)) | (version == 2)
}

// Writes a line from place `at` on; the place behind it.
fn put_line(out: &mut [u8], at: usize, key: &[u8], n: u64) -> usize
    requires { (n < 10 ^ 10) × (length key.now ≤ 11) × (at + 22 ≤ length out.old) }
    ensures value { result ≡ at + length (line key.now n []) }
    ensures out_after { out.new ≡ spliced at (line key.now n []) out.old }
{
    let value = output::put(out, at, key);
    let end = text::put_decimal(out, value, n);
    output::put(out, end, b"\n")
}

// Writes the lines that both versions have at the beginning of a slice; their length.
fn put_first_lines(version: u64, s: Settings, out: &mut [u8]) -> usize
    requires { (version ≤ 2) × (settings_fit s ≡ true) × (110 ≤ length out.old) }
    ensures value { result ≡ length (first_lines version s) }
    ensures out_after { out.new ≡ spliced 0 (first_lines version s) out.old }
{
    let tile = put_line(out, 0, b"version=", version);
    let first = put_line(out, tile, b"tile=", s.tile);
    let last = put_line(out, first, b"shot_first=", s.shot_first);
    put_line(out, last, b"shot_last=", s.shot_last)
}

// Writes the text of settings that are in range at the beginning of a slice; its length.
fn put_text(version: u64, s: Settings, out: &mut [u8]) -> usize
    requires { (version ≤ 2) × (settings_fit s ≡ true) × (110 ≤ length out.old) }
    ensures value { result ≡ length (text_of version s) }
    ensures out_after { out.new ≡ spliced 0 (text_of version s) out.old }
{
    let plane = put_first_lines(version, s, out);
    if version == 2 {
        return put_line(out, plane, b"plane=", s.plane);
    }
    plane
}

// Writes the text of settings.
pub fn write(version: u64, s: Settings, out: &mut [u8]) -> Written
    ensures value { result ≡ as_written (settings_text version s (length out.old)) }
    ensures out_after { out.new ≡ left_by (settings_text version s (length out.old)) out.old }
{
    let fit = settings_fit(s);
    let held = version_holds(version, s);
    if !(fit & held) {
        return Written::Refused(bitstream::BAD_SETTINGS, 0);
    }
    let mut line = [0u8; 110];
    let end = put_text(version, s, &mut line);
    if out.len() < end {
        return Written::Refused(bitstream::SHORT_OUTPUT, 0);
    }
    let written = output::put(out, 0, &line[..end]);
    Written::Bytes(written as u64)
}

// What the lines of a text say, if it is one of that version.
fn said_in(version: u64, text: &[u8]) -> Settings
    ensures { result ≡ said_in version text.now }
{
    let v = text::scan(text, 8);
    let tile = text::scan(text, v.next + 6);
    let first = text::scan(text, tile.next + 12);
    let last = text::scan(text, first.next + 11);
    let plane = text::scan(text, last.next + 7);
    if version == 2 {
        return Settings {
            tile: tile.value,
            shot_first: first.value,
            shot_last: last.value,
            plane: plane.value,
        };
    }
    Settings {
        tile: tile.value,
        shot_first: first.value,
        shot_last: last.value,
        plane: 0,
    }
}

// Whether a text is the one of these settings.
fn is_text_of(version: u64, s: Settings, text: &[u8]) -> bool
    requires { version ≤ 2 }
    ensures { result ≡ is_text_of version s text.now }
{
    if settings_fit(s) {
        let mut line = [0u8; 110];
        let end = put_text(version, s, &mut line);
        return text::same(text, &line[..end]);
    }
    false
}

// What a text of one version says.
fn find_text(version: u64, text: &[u8]) -> Found
    requires { version ≤ 2 }
    ensures { result ≡ as_found (text_found version text.now) }
{
    let said = said_in(version, text);
    if is_text_of(version, said, text) {
        return Found::Is(said);
    }
    Found::Not(20)
}

// What a text says to the reader of a version.
fn find(version: u64, text: &[u8]) -> Found
    ensures { result ≡ as_found (read version text.now) }
{
    if version == 1 {
        if text::stands_at(text, 0, b"version=2\n") {
            return Found::Not(19);
        }
        return find_text(1, text);
    }
    if version == 2 {
        let first = find_text(1, text);
        let Found::Not(_) = first else {
            return first;
        };
        return find_text(2, text);
    }
    Found::Not(20)
}

// Reads the text of settings; a refusal leaves those in use as they were.
pub fn read(version: u64, text: &[u8], in_use: Settings) -> Loaded
    ensures { result ≡ as_loaded in_use (read version text.now) }
{
    match find(version, text) {
        Found::Is(said) => Loaded {
            verdict: Verdict::Accepted,
            settings: said,
        },
        Found::Not(k) => Loaded {
            verdict: Verdict::Refused(k, 0),
            settings: in_use,
        },
    }
}
