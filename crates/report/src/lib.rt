// The report of a census: 34 numbers that packets add to, each sum tested, and what a census answers. docs/MEMORY.md says where each number stands.
#![tactic(auto)]

ghost use Rattle.std.specs.Prelude.{◌≡◌, ℕ, ◌-◌, ◌<◌, ◌≤◌, List, length};
ghost use Rattle.bitstream.specs.Numbers.{wrong_length};
ghost use Rattle.report.specs.Report.{report_size, plus, only, Numbered, refusal_adds};
ghost use Rattle.report.specs.Running.{sum_of, Runs, sum_number, report_after};
ghost use Rattle.report.specs.Answer.{number_of};

// The recording was counted; or the number of the call's refusal, with place 0.
#[derive(Clone, Copy)]
pub enum CensusAnswer {
    Counted,
    Refused(u32, usize),
}

// A report that is being added to. Once a sum has passed 64 bits its numbers say nothing.
#[derive(Clone, Copy)]
pub struct Running {
    pub numbers: [u64; 34],
    pub passed: bool,
}

// A report as it is lent.
pub fn begin(report: &[u64]) -> Running
    requires { length report.now ≡ report_size }
    ensures { Runs result report.now }
{
    let mut numbers = [0; 34];
    buffer::copy_longs(&mut numbers, report);
    Running {
        numbers,
        passed: false,
    }
}

// A sum, and whether it passes 64 bits.
#[derive(Clone, Copy)]
struct Sum {
    is: u64,
    past: bool,
}

fn sum_of(a: u64, b: u64) -> Sum
    ensures { result ≡ sum_of a b }
{
    if a <= 18446744073709551615 - b {
        return Sum {
            is: a + b,
            past: false,
        };
    }
    Sum { is: a, past: true }
}

// Adds to each number. Counts only grow: a sum that has passed 64 bits has passed them for good.
pub fn add(running: Running, more: &[u64]) -> Running
    requires { length more.now ≡ report_size }
    ensures { (l : List ℕ) → Runs running l → Runs result (plus l more.now) }
{
    let mut numbers = running.numbers;
    let mut passed = running.passed;
    let mut i: usize = 0;
    while i < 34 {
        let n = more[i];
        let before = numbers[i];
        let s = sum_of(before, n);
        numbers[i] = s.is;
        passed = passed | s.past;
        i += 1;
    }
    Running { numbers, passed }
}

// Adds n at one place.
pub fn add_at(running: Running, at: usize, n: u64) -> Running
    requires { at < report_size }
    ensures { (l : List ℕ) → Runs running l → Runs result (plus l (only at n)) }
{
    let mut more = [0; 34];
    more[at] = n;
    add(running, &more)
}

// Stores the sums, or answers 15 and leaves the report as it was.
pub fn store(running: Running, report: &mut [u64]) -> u32
    requires { length report.old ≡ report_size }
    ensures { (l : List ℕ) → Runs running l → (result ≡ sum_number l) × (report.new ≡ report_after l report.old) }
{
    if running.passed {
        return bitstream::PAST_COUNT;
    }
    let numbers = running.numbers;
    buffer::copy_longs(report, &numbers);
    0
}

// Adds so many refusals by one number.
pub fn add_refusals(running: Running, k: u32, n: u64) -> Running
    requires { Numbered k }
    ensures { (l : List ℕ) → Runs running l → Runs result (plus l (refusal_adds k n)) }
{
    let at = 2 + k as usize;
    add_at(running, at, n)
}

// Adds the frame packets of a recording of so many packets, all refused by 1: the three headers are not counted.
pub fn refuse_frames(running: Running, packets: u64) -> Running
    requires { 3 ≤ packets }
    ensures { (l : List ℕ) → Runs running l → Runs result (plus l (refusal_adds wrong_length (packets - 3))) }
{
    let frames = packets - 3;
    add_refusals(running, bitstream::WRONG_LENGTH, frames)
}

// 0, or the number of the refusal.
pub fn number_of(answer: CensusAnswer) -> u32
    ensures { result ≡ number_of answer }
{
    match answer {
        CensusAnswer::Counted => 0,
        CensusAnswer::Refused(k, _) => k,
    }
}
