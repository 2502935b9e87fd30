// The trace: a case of it is read as those of the calls are, and its line has the length and H of all that is printed.
use std::io;
use std::io::Read;
use tracing::Tracer;
use vectors::{MAX_FIELD, NONE, after, field, line};

// The trace's number in the stream and in the lines.
pub(crate) const TRACE: u8 = 8;

// A case of the trace: a program, a start file and the picks.
pub(crate) fn case(rt: &impl Print, file: &mut impl Read) -> io::Result<()> {
    let mut program = [0u8; MAX_FIELD];
    let mut starts = [0u8; MAX_FIELD];
    let mut picks = [0u8; MAX_FIELD];
    let program = field(file, &mut program);
    let starts = field(file, &mut starts);
    let picks = field(file, &mut picks);
    answer(rt, program, starts, picks)
}

// The length and H of all that the trace prints.
fn answer(rt: &impl Print, program: &[u8], starts: &[u8], picks: &[u8]) -> io::Result<()> {
    let mut list = [0u8; sizes::LIST_BYTES];
    let mut log = [0u8; sizes::LOG_BYTES];
    let mut kept = [0u8; sizes::KEPT_BYTES];
    let first = tracing::open(program, starts, &mut list, &mut log, &kept);
    answer_from(rt, first, &list, &mut log, &mut kept, picks)
}

// The same, from where a trace begins.
fn answer_from(
    rt: &impl Print,
    mut tracer: Tracer,
    list: &[u8],
    log: &mut [u8],
    kept: &mut [u8],
    picks: &[u8],
) -> io::Result<()> {
    let mut bytes: u64 = 0;
    let mut h = NONE;
    while !tracer.done() {
        let printed = tracer.next(list, log, kept, picks);
        let text = printed.text.as_bytes();
        bytes = bytes.wrapping_add(text.len() as u64);
        h = after(h, text);
        tracer = printed.tracer;
    }
    line(rt, TRACE, &[bytes, h as u64])
}
