// The trace: reads program.rec, start.rec and picks.rec in the folder that it runs in, and prints a line for the start and after each pick
// taken, and the last line. `tracing` says what is printed and in which order; here it is only read and written.
#![tactic(auto)]

use std::io;
use tracing::Tracer;

// Prints a trace piece by piece, until all is printed.
fn print_all(
    rt: &impl Print,
    mut tracer: Tracer,
    list: &[u8],
    log: &mut [u8],
    kept: &mut [u8],
    picks: &[u8],
) -> io::Result<()> {
    while !tracer.done() {
        let printed = tracer.next(list, log, kept, picks);
        files::print(rt, printed.text)?;
        tracer = printed.tracer;
    }
    Ok(())
}

// Prints the trace of three files.
fn trace(rt: &impl Print, program: &[u8], starts: &[u8], picks: &[u8]) -> io::Result<()> {
    let mut list = [0u8; sizes::LIST_BYTES];
    let mut log = [0u8; sizes::LOG_BYTES];
    let mut kept = [0u8; sizes::KEPT_BYTES];
    let first = tracing::open(program, starts, &mut list, &mut log, &kept);
    print_all(rt, first, &list, &mut log, &mut kept, picks)
}

fn main(rt: HostRuntime) {
    let mut program = [0u8; sizes::ENOUGH];
    let mut starts = [0u8; sizes::ENOUGH_STARTS];
    let mut picks = [0u8; sizes::ENOUGH];
    let program_count = files::read(&rt, b"program.rec", &mut program);
    let starts_count = files::read(&rt, b"start.rec", &mut starts);
    let picks_count = files::read(&rt, b"picks.rec", &mut picks);
    // Where nothing more can be written, the output has no last line, which says so; there is no status for it.
    let _ = trace(
        &rt,
        &program[..program_count],
        &starts[..starts_count],
        &picks[..picks_count],
    );
}
