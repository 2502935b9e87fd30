// Why stations were not picked: reads program.rec, start.rec and picks.rec in the folder that it runs in, runs them as the trace does, to the
// end or to the refusal that stopped it, and prints a line for each station of the state reached, and then the trace's last line. Where the
// trace is refused before its start there is no station, and only that line comes.
//
// The files in data/ have four stations, B = 2 and resets 0, 1, 1 and 2: SET v1 := 7; SET v2 := 9; STATION; AWAIT v2 equals v1; SKIP; END;
// STATION; SET v2 := 7; STATION; SKIP; STATION; SKIP. Station 2 is picked, and ends; then station 3 is asked for, and refused with TURN. In the
// state that this pick found station 0 waits, 1 may be picked, 2 has ended and 3 is behind 1.
#![tactic(auto)]

ghost use Rattle.std.specs.Prelude.{◌≡◌};
ghost use Rattle.rules.specs.Why.{why};
ghost use Rattle.state.specs.View.{as_state};
ghost use Rattle.text.specs.View.{text_of};
ghost use Rattle.wording.specs.Wording.{why_line};

use state::State;
use std::io;
use text::Text;

// The line of a station.
fn line(state: State, list: &[u8], station: u8) -> Text
    ensures { text_of result ≡ why_line station (why list.now (as_state state) station) }
{
    wording::line(station, explaining::why(state, list, station))
}

// Prints the line of each station.
fn print_lines(rt: &impl Print, state: State, list: &[u8]) -> io::Result<()> {
    for j in 0..state.n {
        files::print(rt, line(state, list, j))?;
    }
    Ok(())
}

// Prints what three files come to.
fn tell(rt: &impl Print, program: &[u8], starts: &[u8], picks: &[u8]) -> io::Result<()> {
    let mut list = [0u8; sizes::LIST_BYTES];
    let mut log = [0u8; sizes::LOG_BYTES];
    let mut kept = [0u8; sizes::KEPT_BYTES];
    let first = tracing::open(program, starts, &mut list, &mut log, &kept);
    let reached = reaching::reach(first, &list, &mut log, &mut kept, picks);
    print_lines(rt, reached.state, sizes::used(&list, reached.count))?;
    files::print(rt, reached.text)
}

fn main(rt: HostRuntime) {
    let mut program = [0u8; sizes::ENOUGH];
    let mut starts = [0u8; sizes::ENOUGH_STARTS];
    let mut picks = [0u8; sizes::ENOUGH];
    let program_count = files::read(&rt, b"program.rec", &mut program);
    let starts_count = files::read(&rt, b"start.rec", &mut starts);
    let picks_count = files::read(&rt, b"picks.rec", &mut picks);
    // Where nothing more can be written, the output has no last line, which says so; there is no status for it.
    let _ = tell(
        &rt,
        &program[..program_count],
        &starts[..starts_count],
        &picks[..picks_count],
    );
}
