// Lines of text to a worklist.
use crate::fault::Fault;
use crate::list::{Request, Worklist};
use crate::numbers::{bytes, number, signed, two_numbers};
use plan_words::parse_pile;
use smallvec::SmallVec;
use std::alloc::{AllocError, Global};
use tone::Grey;

// The list of an input that has told nothing.
pub fn nothing_told(heap: Global) -> Worklist {
    Worklist {
        plan: None,
        threshold: None,
        size: None,
        tones: Vec::new(heap),
        requests: Vec::new(heap),
        jobs: Vec::new(heap),
    }
}

// The words of a line.
fn words_of(heap: Global, line: &str) -> Result<Vec<String>, AllocError> {
    line.split_whitespace()
        .map(|word| String::from_str(heap, word))
        .try_collect(heap)
}

// No word may be left over.
fn no_words(words: &[String], form: &'static str) -> Result<(), Fault> {
    if words.is_empty() {
        Ok(())
    } else {
        Err(Fault::Form(form))
    }
}

// What jobs are opened with is told before the first of them.
fn in_time(list: &Worklist, name: &'static str) -> Result<(), Fault> {
    if list.jobs.is_empty() {
        Ok(())
    } else {
        Err(Fault::Late(name))
    }
}

// What is told once is told in time, and not again.
fn once(list: &Worklist, told: bool, name: &'static str) -> Result<(), Fault> {
    in_time(list, name)?;
    if told {
        Err(Fault::Twice(name))
    } else {
        Ok(())
    }
}

// `plan WORDS..`; this and the two that follow each write a field of their own, and what they share is `once`.
fn read_plan(heap: Global, list: &mut Worklist, words: &[String]) -> Result<(), Fault> {
    once(list, list.plan.is_some(), "plan")?;
    list.plan = Some(parse_pile(heap, words)?);
    Ok(())
}

// `threshold NUMBER`
fn read_threshold(heap: Global, list: &mut Worklist, words: &[String]) -> Result<(), Fault> {
    once(list, list.threshold.is_some(), "threshold")?;
    let [word] = words else {
        return Err(Fault::Form("threshold NUMBER"));
    };
    list.threshold = Some(signed(heap, word.as_str())?);
    Ok(())
}

// `size ROWS COLUMNS`
fn read_size(heap: Global, list: &mut Worklist, words: &[String]) -> Result<(), Fault> {
    once(list, list.size.is_some(), "size")?;
    list.size = Some(two_numbers(heap, words, "size ROWS COLUMNS")?);
    Ok(())
}

// `tones NUMBERS..`
fn read_tones(heap: Global, list: &mut Worklist, words: &[String]) -> Result<(), Fault> {
    in_time(list, "tones")?;
    for word in words {
        let value = signed(heap, word.as_str())?;
        list.tones.push(Grey { value })?;
    }
    Ok(())
}

// The places of a Follow. Two take no memory beside the request, and more no more than they need.
fn read_places(heap: Global, words: &[String]) -> Result<SmallVec<usize, 2>, Fault> {
    let mut places = SmallVec::with_capacity(heap, words.len())?;
    for word in words {
        places.push(number(heap, word.as_str())?)?;
    }
    Ok(places)
}

// The record of a Resume, in one word or in several. Apart from the places, since a word gives several bytes here.
fn read_record(heap: Global, words: &[String]) -> Result<SmallVec<u8, 16>, Fault> {
    let mut record = SmallVec::new(heap);
    for word in words {
        record.extend_from_slice(bytes(heap, word.as_str())?.as_slice())?;
    }
    record.shrink_to_fit();
    Ok(record)
}

// The call that a line tells.
fn parse_request(heap: Global, name: &str, words: &[String]) -> Result<Request, Fault> {
    match name {
        "fix" => {
            let (row, column) = two_numbers(heap, words, "fix ROW COLUMN")?;
            Ok(Request::Fix(row, column))
        }
        "follow" => Ok(Request::Follow(read_places(heap, words)?)),
        "finish" => {
            no_words(words, "finish")?;
            Ok(Request::Finish)
        }
        "halt" => {
            no_words(words, "halt")?;
            Ok(Request::Halt)
        }
        "resume" => Ok(Request::Resume(read_record(heap, words)?)),
        "tally" => {
            no_words(words, "tally")?;
            Ok(Request::Tally)
        }
        "losses" => {
            no_words(words, "losses")?;
            Ok(Request::Losses)
        }
        other => Err(Fault::UnknownWord(String::from_str(heap, other)?)),
    }
}

// Begins a job, with no calls yet.
fn begin(list: &mut Worklist) -> Result<(), Fault> {
    if list.size.is_none() {
        return Err(Fault::NoSize);
    }
    list.jobs.push(0)?;
    Ok(())
}

// A call, on the job opened last, or on the first where none was opened.
fn read_request(
    heap: Global,
    list: &mut Worklist,
    name: &str,
    words: &[String],
) -> Result<(), Fault> {
    let request = parse_request(heap, name, words)?;
    if list.jobs.is_empty() {
        begin(list)?;
    }
    list.requests.push(request)?;
    if let Some(calls) = list.jobs.last_mut() {
        *calls = calls.saturating_add(1);
    }
    Ok(())
}

// One line. Blank lines and those that begin with # tell nothing.
pub fn read_line(heap: Global, list: &mut Worklist, line: &str) -> Result<(), Fault> {
    let all = words_of(heap, line)?;
    let [name, words @ ..] = all.as_slice() else {
        return Ok(());
    };
    if name.as_str().starts_with('#') {
        return Ok(());
    }
    match name.as_str() {
        "plan" => read_plan(heap, list, words),
        "threshold" => read_threshold(heap, list, words),
        "size" => read_size(heap, list, words),
        "tones" => read_tones(heap, list, words),
        "open" => {
            no_words(words, "open")?;
            begin(list)
        }
        other => read_request(heap, list, other, words),
    }
}
