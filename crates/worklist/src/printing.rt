// The lines that are printed: what was asked, and what was answered.
use crate::working::Outcome;
use calls::{Answer, Call, Window};
use refusal::Refusal;
use std::fmt;
use tone::Grey;

// Bytes, two hexadecimal digits each.
#[derive(Clone, Copy)]
struct Bytes<'a>(&'a [u8]);

impl fmt::Display for Bytes<'_> {
    fn fmt<W: fmt::Write>(&self, f: &mut fmt::Formatter<W>) -> fmt::Result {
        for byte in self.0 {
            write!(f, "{byte:02X}")?;
        }
        Ok(())
    }
}

// Places, with a space before each.
#[derive(Clone, Copy)]
struct Places<'a>(&'a [usize]);

impl fmt::Display for Places<'_> {
    fn fmt<W: fmt::Write>(&self, f: &mut fmt::Formatter<W>) -> fmt::Result {
        for place in self.0 {
            write!(f, " {place}")?;
        }
        Ok(())
    }
}

// What was asked.
#[derive(Clone, Copy)]
struct Asked<'a>(Call<'a>);

impl fmt::Display for Asked<'_> {
    fn fmt<W: fmt::Write>(&self, f: &mut fmt::Formatter<W>) -> fmt::Result {
        match self.0 {
            Call::Fix(row, column) => write!(f, "fix {row} {column}"),
            Call::Follow(places) => write!(f, "follow{}", Places(places)),
            Call::Finish => write!(f, "finish"),
            Call::Halt(_) => write!(f, "halt"),
            Call::Resume(&[]) => write!(f, "resume"),
            Call::Resume(record) => write!(f, "resume {}", Bytes(record)),
            Call::Tally => write!(f, "tally"),
            Call::Losses(_, _) => write!(f, "losses"),
        }
    }
}

// A refusal told by its number.
#[derive(Clone, Copy)]
struct Numbered(u8);

impl fmt::Display for Numbered {
    fn fmt<W: fmt::Write>(&self, f: &mut fmt::Formatter<W>) -> fmt::Result {
        let number = self.0;
        match Refusal::try_from(number) {
            Ok(refusal) => write!(f, "{refusal}"),
            Err(_) => write!(f, "refusal {number}"),
        }
    }
}

// The losses of one call: how many there are, and then each.
#[derive(Clone, Copy)]
struct Listed<'a> {
    places: &'a [usize],
    errors: &'a [Grey],
}

impl fmt::Display for Listed<'_> {
    fn fmt<W: fmt::Write>(&self, f: &mut fmt::Formatter<W>) -> fmt::Result {
        write!(f, "{}", self.places.len())?;
        for (i, (place, error)) in self.places.iter().zip(self.errors).enumerate() {
            let before = if i == 0 { ": " } else { ", " };
            write!(f, "{before}{} at place {place}", error.value)?;
        }
        Ok(())
    }
}

// What an accepted call answered, which for a number depends on what was asked.
#[derive(Clone, Copy)]
struct Answered<'a> {
    outcome: &'a Outcome<'a>,
    call: Call<'a>,
    answer: Answer<Grey>,
}

// The first elements of a window into a list, cut to the list where it reaches past the end.
fn written<X>(list: &[X], window: Window, count: usize) -> &[X] {
    let part = Window {
        start: window.start,
        length: count,
    };
    let low = part.low(list.len());
    let high = part.high(list.len());
    &list[low..high]
}

impl fmt::Display for Answered<'_> {
    fn fmt<W: fmt::Write>(&self, f: &mut fmt::Formatter<W>) -> fmt::Result {
        match self.answer {
            Answer::Code(code) => write!(f, "code {code}"),
            Answer::Followed(accepted, 0) => write!(f, "{accepted} accepted"),
            Answer::Followed(accepted, number) => write!(
                f,
                "{accepted} accepted, then {}",
                Numbered(number)
            ),
            Answer::Count(count) => self.fmt_count(f, count),
            Answer::Resumed => write!(f, "accepted"),
            Answer::Totals(totals) => write!(
                f,
                "drawing {}, outputs {}, losses {}, open {}",
                totals.drawing.value,
                totals.outputs.value,
                totals.losses.value,
                totals.amounts.value
            ),
        }
    }
}

impl Answered<'_> {
    // A number, as the call means it.
    fn fmt_count<W: fmt::Write>(&self, f: &mut fmt::Formatter<W>, count: usize) -> fmt::Result {
        match self.call {
            Call::Halt(window) => write!(
                f,
                "{count} bytes {}",
                Bytes(written(self.outcome.bytes.as_slice(), window, count))
            ),
            Call::Losses(at, of) => write!(
                f,
                "{}",
                Listed {
                    places: written(self.outcome.places.as_slice(), at, count),
                    errors: written(self.outcome.errors.as_slice(), of, count),
                }
            ),
            _ => write!(f, "{count} fixed"),
        }
    }
}

// Prints a job: its opening, and then, where it was opened, each call and its answer.
pub fn print_outcome(
    rt: &HostRuntime,
    rows: usize,
    columns: usize,
    outcome: &Outcome<'_>,
) -> anyhow::Result<()> {
    if let Err(refusal) = outcome.opened {
        println!(rt; "open {rows} by {columns}: {refusal}")?;
        return Ok(());
    }
    println!(rt; "open {rows} by {columns}: accepted")?;
    for (call, answer) in outcome.calls.iter().zip(outcome.answers.iter()) {
        let asked = Asked(*call);
        match *answer {
            Ok(answer) => {
                let answered = Answered {
                    outcome: &*outcome,
                    call: *call,
                    answer,
                };
                println!(rt; "{asked}: {answered}")?;
            }
            Err(refusal) => println!(rt; "{asked}: {refusal}")?,
        }
    }
    Ok(())
}
