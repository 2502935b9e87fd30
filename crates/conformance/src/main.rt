// The gate's vectors: reads a stream of cases from the file cases.bin in the folder that it runs in, makes every call with the crates here,
// and prints one answer line a case. The head of independent/cases.c says how a case and its line are spelled.
// Both files are the independent program's, which independent/build.sh makes: `independent/cases write 1` writes data/cases.bin, and
// `independent/cases answer`, given that, prints the file stdout.
#![tactic(auto)]

use std::fs::File;
use std::io;
use std::io::{BufReader, Read};
use traces::TRACE;

mod traces;

// Reads a case, which begins with its call's number, and writes its line. It answers whether to go on: not at the end of the stream or at a
// number that no call has.
fn answer(rt: &impl Print, file: &mut impl Read) -> io::Result<bool> {
    match vectors::byte(file) {
        TRACE => {
            traces::case(rt, file)?;
            Ok(true)
        }
        call => vectors::answer(rt, file, call),
    }
}

// Answers case after case. The loop has to end and nothing says that a stream does, so it counts to a number that no stream reaches.
fn answer_all(rt: &impl Print, file: &mut impl Read) -> io::Result<()> {
    for _ in 0..u64::MAX {
        if !answer(rt, file)? {
            break;
        }
    }
    Ok(())
}

fn main(rt: HostRuntime) -> io::Result<()> {
    match File::open(&rt, "cases.bin") {
        Ok(file) => {
            let mut file = BufReader::new(rt.alloc(), file)?;
            // Where a line cannot be written, the lines end there, and no status says so.
            let _ = answer_all(&rt, &mut file);
            Ok(())
        }
        Err(error) => eprintln!(rt; "cases.bin: {error}"),
    }
}
