// What the programs over a folder share: a file is read, and a text is written.
#![tactic(auto)]

ghost use Rattle.std.specs.Prelude.{◌≡◌, ◌≤◌, length, take};
ghost use Rattle.std.specs.Io.KnownBytes.{Consumes};

use std::fs::File;
use std::io;
use std::io::Read;
use std::rt::Files;
use text::Text;

// Reads a file until the buffer is full, it ends or a read fails, and answers how many bytes came. One that cannot be opened counts as empty.
pub fn read(rt: &impl Files, path: &[u8], buffer: &mut [u8]) -> usize
    ensures { (result ≤ length buffer.new) × (result ≡ length (take result buffer.new)) }
{
    let Ok(path) = str::from_utf8(path) else {
        return 0;
    };
    match File::open(rt, path) {
        Ok(mut file) => fill(&mut file, buffer),
        Err(_) => 0,
    }
}

// Reads until the buffer is full, the reader ends or a read fails, and answers how many bytes came. They stand at the buffer's front, as the
// reader gave them, and it has given no others. `read_exact` would not say how many came.
pub fn fill<F: Read>(reader: &mut F, buffer: &mut [u8]) -> usize
    ensures in_bounds { result ≤ length buffer.new }
    ensures bytes { Consumes (F.remaining reader.old) (F.remaining reader.new) (take result buffer.new) }
{
    let mut done: usize = 0;
    while done < buffer.len() {
        match reader.read(&mut buffer[done..]) {
            Ok(count) if count > 0 => done += count,
            _ => break,
        }
    }
    done
}

// Writes a text to the standard output.
pub fn print(rt: &impl Print, text: Text) -> io::Result<()> {
    rt.write_all(text.as_bytes())
}
