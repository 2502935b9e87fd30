// An answer line: the call's number and the numbers of its answer, in decimal with single spaces.
use std::io;

// Writes a line.
pub fn line(rt: &impl Print, call: u8, numbers: &[u64]) -> io::Result<()> {
    print!(rt; "{call}")?;
    for number in numbers {
        print!(rt; " {number}")?;
    }
    println!(rt)
}
