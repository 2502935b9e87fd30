// The cases of the calls: each reads the call's fields in their order, into buffers that no field is too long for, makes the call by
// the name that C has for it, and writes its line. The length of a field that is always as long, as b, a pick and the most-steps number
// are, is read over. What a line cannot hold, a state and a lent buffer afterwards, it has as H.
use crate::fields::{buffer, field, fixed};
use crate::hash::hash;
use crate::kept::kept_field;
use crate::lines::line;
use crate::states::{hash_state, state};
use run::Outcome;
use std::io;
use std::io::Read;

// The calls by their numbers in the stream and in the lines.
#[derive(Clone, Copy, Debug, PartialEq, Eq)]
enum Call {
    Check = 1,
    Build = 2,
    Start = 3,
    Step = 4,
    Run = 5,
    Undo = 6,
    Lights = 7,
    Readiness = 9,
    Why = 10,
}

// The number of a case that is none of them.
#[derive(Clone, Copy, Debug, PartialEq, Eq)]
struct NoCall(u8);

impl TryFrom<u8> for Call {
    type Error = NoCall;

    fn try_from(number: u8) -> Result<Call, NoCall> {
        match number {
            1 => Ok(Call::Check),
            2 => Ok(Call::Build),
            3 => Ok(Call::Start),
            4 => Ok(Call::Step),
            5 => Ok(Call::Run),
            6 => Ok(Call::Undo),
            7 => Ok(Call::Lights),
            9 => Ok(Call::Readiness),
            10 => Ok(Call::Why),
            _ => Err(NoCall(number)),
        }
    }
}

// Reads the fields of a call by its number and writes its line. It answers whether to go on: not at a number that none of them has.
pub fn answer(rt: &impl Print, file: &mut impl Read, call: u8) -> io::Result<bool> {
    let Ok(call) = Call::try_from(call) else {
        return Ok(false);
    };
    match call {
        Call::Check => check(rt, file)?,
        Call::Build => build(rt, file)?,
        Call::Start => start(rt, file)?,
        Call::Step => step(rt, file)?,
        Call::Run => run(rt, file)?,
        Call::Undo => undo(rt, file)?,
        Call::Lights => lights(rt, file)?,
        Call::Readiness => readiness(rt, file)?,
        Call::Why => why(rt, file)?,
    }
    Ok(true)
}

// A case of check: a program. Its line: the number and the place.
fn check(rt: &impl Print, file: &mut impl Read) -> io::Result<()> {
    let mut program = buffer();
    let program = field(file, &mut program);
    let checked = panel::press_check(program);
    line(
        rt,
        Call::Check as u8,
        &[checked.number as u64, checked.place as u64],
    )
}

// A case of build: a program and a buffer. Its line: the number, the place, the count and the buffer.
fn build(rt: &impl Print, file: &mut impl Read) -> io::Result<()> {
    let mut program = buffer();
    let mut list = buffer();
    let program = field(file, &mut program);
    let list = field(file, &mut list);
    let built = panel::press_build(program, list);
    line(
        rt,
        Call::Build as u8,
        &[
            built.number as u64,
            built.place as u64,
            built.count as u64,
            hash(list),
        ],
    )
}

// A case of start: a list, b, the resets, a log and the kept states. Its line: that of an outcome.
fn start(rt: &impl Print, file: &mut impl Read) -> io::Result<()> {
    let mut list = buffer();
    let mut resets = buffer();
    let mut log = buffer();
    let list = field(file, &mut list);
    let [b] = fixed::<1>(file);
    let resets = field(file, &mut resets);
    let log = field(file, &mut log);
    let mut kept = buffer();
    let kept = kept_field(file, &mut kept);
    let started = panel::press_start(list, b, resets, log, kept);
    outcome(rt, Call::Start, started, log, kept)
}

// A case of step: a list, a state, a log, the kept states and a pick. Its line: that of an outcome.
fn step(rt: &impl Print, file: &mut impl Read) -> io::Result<()> {
    let mut list = buffer();
    let mut log = buffer();
    let list = field(file, &mut list);
    let given = state(file);
    let log = field(file, &mut log);
    let mut kept = buffer();
    let kept = kept_field(file, &mut kept);
    let [station, reset] = fixed::<2>(file);
    let stepped = panel::press_step(given, list, log, kept, station, reset);
    outcome(rt, Call::Step, stepped, log, kept)
}

// A case of run: a list, a state, a log, the kept states, the picks and the most-steps number. Its line: the number, the steps taken, the state
// and the two buffers.
fn run(rt: &impl Print, file: &mut impl Read) -> io::Result<()> {
    let mut list = buffer();
    let mut log = buffer();
    let mut picks = buffer();
    let list = field(file, &mut list);
    let given = state(file);
    let log = field(file, &mut log);
    let mut kept = buffer();
    let kept = kept_field(file, &mut kept);
    let picks = field(file, &mut picks);
    let most = u64::from_le_bytes(fixed(file));
    let ran = panel::press_run(given, list, log, kept, picks, most as usize);
    line(
        rt,
        Call::Run as u8,
        &[
            ran.number as u64,
            ran.steps as u64,
            hash_state(&ran.state),
            hash(log),
            hash(kept),
        ],
    )
}

// A case of undo: a list, a state, a log and the kept states. Its line: the number and the state.
fn undo(rt: &impl Print, file: &mut impl Read) -> io::Result<()> {
    let mut list = buffer();
    let mut log = buffer();
    let list = field(file, &mut list);
    let given = state(file);
    let log = field(file, &mut log);
    let mut kept = buffer();
    let kept = kept_field(file, &mut kept);
    let undone = panel::press_undo(given, list, log, kept);
    line(
        rt,
        Call::Undo as u8,
        &[undone.number as u64, hash_state(&undone.state)],
    )
}

// A case of lights: a list and a state. Its line: the number, the four masks, and the two rows together.
fn lights(rt: &impl Print, file: &mut impl Read) -> io::Result<()> {
    let mut list = buffer();
    let list = field(file, &mut list);
    let given = state(file);
    let lit = panel::press_lights(given, list);
    line(
        rt,
        Call::Lights as u8,
        &[
            lit.number as u64,
            lit.ready as u64,
            lit.in_turn as u64,
            lit.waiting as u64,
            lit.ended as u64,
            hash(lit.rows().as_flattened()),
        ],
    )
}

// A case of readiness: a list, a state and a station. Its line: the number and the place.
fn readiness(rt: &impl Print, file: &mut impl Read) -> io::Result<()> {
    let mut list = buffer();
    let list = field(file, &mut list);
    let given = state(file);
    let [station] = fixed::<1>(file);
    let told = panel::press_readiness(given, list, station);
    line(
        rt,
        Call::Readiness as u8,
        &[told.number as u64, told.place as u64],
    )
}

// A case of why: a list, a state and a station. Its line: the number, the place, the station ahead, how many variables are named, and the two
// variables and their values.
fn why(rt: &impl Print, file: &mut impl Read) -> io::Result<()> {
    let mut list = buffer();
    let list = field(file, &mut list);
    let given = state(file);
    let [station] = fixed::<1>(file);
    let why = panel::press_why(given, list, station);
    let first = why.seen(0);
    let second = why.seen(1);
    line(
        rt,
        Call::Why as u8,
        &[
            why.number as u64,
            why.place as u64,
            why.ahead as u64,
            why.count as u64,
            first.variable as u64,
            second.variable as u64,
            first.value as u64,
            second.value as u64,
        ],
    )
}

// The line of a start and of a step: the number, the state and the two buffers.
fn outcome(
    rt: &impl Print,
    call: Call,
    outcome: Outcome,
    log: &[u8],
    kept: &[u8],
) -> io::Result<()> {
    line(
        rt,
        call as u8,
        &[
            outcome.number as u64,
            hash_state(&outcome.state),
            hash(log),
            hash(kept),
        ],
    )
}
