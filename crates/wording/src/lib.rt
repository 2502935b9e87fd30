// The line that says why a station was not picked.
#![tactic(auto)]

ghost use Rattle.std.specs.Prelude.{◌≡◌, ◌++◌, ◌≤◌, length, take};
ghost use Rattle.reason.specs.View.{as_why};
ghost use Rattle.text.specs.View.{max_line, text_of};
ghost use Rattle.wording.specs.Wording.{shown as shown_of, said_of, waits, why_line};

use reason::Why;
use record::Record;
use text::Text;

// The line of a station: that it may be picked, that it is behind another, where it waits and for which variables, with their values, that it
// has ended, or the number with which it is refused.
pub fn line(station: u8, why: Why) -> Text
    ensures { text_of result ≡ why_line station (as_why why) }
{
    let named = Text::empty().words(b"station ").decimal(station as u32);
    said(named, why).put(b'\n')
}

// A text with what is said of the station after it, as far as there is room. It takes 62 bytes at most.
fn said(first: Text, why: Why) -> Text
    ensures { (text_of result ≡ take max_line (text_of first ++ said_of (as_why why))) × (length (said_of (as_why why)) ≤ 62) }
{
    match why.number {
        0 => first.words(b" may be picked"),
        Record::TURN => first
            .words(b" is behind station ")
            .decimal(why.ahead as u32),
        Record::NOT_READY => waiting(first, why),
        Record::ENDED => first.words(b" has ended"),
        _ => first.words(b" is refused with ").decimal(why.number as u32),
    }
}

// A text with where a station waits after it, and the variables that its condition names.
fn waiting(first: Text, why: Why) -> Text
    ensures { (text_of result ≡ take max_line (text_of first ++ waits (as_why why))) × (length (waits (as_why why)) ≤ 62) }
{
    let at = first
        .words(b" waits at record ")
        .decimal(why.place as u32)
        .words(b": ");
    let one = shown(at, why.variables[0], why.values[0]);
    if why.count == 1 {
        return one;
    }
    shown(one.words(b", "), why.variables[1], why.values[1])
}

// A text with a variable and its value after it: 18 bytes at most.
fn shown(first: Text, variable: u8, value: u32) -> Text
    ensures { (text_of result ≡ take max_line (text_of first ++ shown_of variable value)) × (length (shown_of variable value) ≤ 18) }
{
    first
        .put(b'v')
        .decimal(variable as u32)
        .words(b" is ")
        .decimal(value)
}
