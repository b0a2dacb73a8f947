//! A case file, line by line: what a case is about, and then what it must give.
use crate::properties::check;
use crate::random::{Counts, bytes, texts};
use crate::report::{Place, Report};
use std::alloc::{AllocError, Global};
use std::collections::BTreeMap;
use std::str;
use toml_case_answers::answers::{answer_of, calls_answer};
use toml_case_answers::calls::{Outcome, come_to};
use toml_case_answers::escapes::bytes_of;
use toml_case_answers::nodes::nodes_of;

/// The texts so far, each with the place where it stands.
pub(crate) type Seen = BTreeMap<Vec<u8>, String>;

// What the lines below are about.
#[derive(Drop)]
enum Subject {
    Nothing,
    Text(Vec<u8>),
    Calls(Outcome),
    Random(Counts),
}

// A text that stands in an earlier case too is reported.
fn enter(
    alloc: Global,
    seen: &mut Seen,
    report: &mut Report,
    place: Place<'_>,
    text: &[u8],
) -> Result<(), AllocError> {
    let key = Vec::from_slice(alloc, text)?;
    let here = format!(in alloc; "{}:{}", place.file, place.line)?;
    if let Some(earlier) = seen.insert(key, here)? {
        let what = format!(in alloc; "this text stands at {earlier} too")?;
        report.fail(place, what.as_str())?;
    }
    Ok(())
}

fn random(
    alloc: Global,
    report: &mut Report,
    place: Place<'_>,
    rest: &str,
) -> Result<Counts, AllocError> {
    let (what, times) = rest.split_once(' ').unwrap_or((rest, ""));
    let times = times.parse::<usize>().unwrap_or(0);
    match what {
        "texts" => texts(alloc, report, place, times),
        "bytes" => bytes(alloc, report, place, times),
        _ => {
            report.fail(place, "no such random case")?;
            Ok(Counts::none())
        }
    }
}

// The nodes that a case lists are all of its text's.
#[derive(Drop)]
struct Nodes {
    line: usize,
    wanted: String,
}

fn check_nodes(
    alloc: Global,
    report: &mut Report,
    file: &str,
    subject: &Subject,
    nodes: &Nodes,
) -> Result<(), AllocError> {
    let Subject::Text(text) = subject else {
        return Ok(());
    };
    if nodes.wanted.is_empty() {
        return Ok(());
    }
    let text = str::from_utf8(text.as_slice()).unwrap_or("");
    let got = nodes_of(alloc, text)?;
    let mut lines = got.as_str().lines();
    let mut line = nodes.line;
    for wanted in nodes.wanted.as_str().lines() {
        let got = lines.next().unwrap_or("no node");
        report.compare(alloc, Place { file, line }, wanted, got)?;
        line = line.saturating_add(1);
    }
    if let Some(more) = lines.next() {
        let what = format!(in alloc; "a node more: {more}")?;
        report.fail(Place { file, line }, what.as_str())?;
    }
    Ok(())
}

fn check_more(
    alloc: Global,
    report: &mut Report,
    place: Place<'_>,
    counts: Counts,
    rest: &str,
) -> Result<(), AllocError> {
    let (name, least) = rest.split_once(' ').unwrap_or((rest, ""));
    let least = least.parse::<usize>().unwrap_or(usize::MAX);
    match counts.of(name) {
        Some(count) if count > least => {
            report.pass();
            Ok(())
        }
        Some(count) => {
            let what = format!(in alloc; "{count} are {name}")?;
            report.fail(place, what.as_str())
        }
        None => report.fail(place, "no such count"),
    }
}

fn check_line(
    alloc: Global,
    report: &mut Report,
    place: Place<'_>,
    subject: &Subject,
    word: &str,
    rest: &str,
) -> Result<(), AllocError> {
    match subject {
        Subject::Nothing => report.fail(place, "it stands below no text and no calls"),
        Subject::Random(counts) => check_more(alloc, report, place, *counts, rest),
        Subject::Calls(outcome) => {
            let (wanted, got) = calls_answer(alloc, outcome, word, rest)?;
            report.compare(alloc, place, wanted.as_str(), got.as_str())
        }
        Subject::Text(text) => {
            let (wanted, got) = answer_of(alloc, text.as_slice(), word, rest)?;
            report.compare(alloc, place, wanted.as_str(), got.as_str())
        }
    }
}

// What a line that begins a case is about.
fn subject_of(
    alloc: Global,
    seen: &mut Seen,
    report: &mut Report,
    place: Place<'_>,
    word: &str,
    rest: &str,
) -> Result<Option<Subject>, AllocError> {
    match word {
        "text" => {
            let text = bytes_of(alloc, rest)?;
            enter(alloc, seen, report, place, text.as_slice())?;
            check(alloc, report, place, text.as_slice())?;
            Ok(Some(Subject::Text(text)))
        }
        "calls" => Ok(Some(Subject::Calls(come_to(alloc, rest)?))),
        "random" => Ok(Some(Subject::Random(random(alloc, report, place, rest)?))),
        _ => Ok(None),
    }
}

/// Runs the cases of a file.
pub(crate) fn run(
    alloc: Global,
    seen: &mut Seen,
    report: &mut Report,
    file: &str,
    contents: &str,
) -> Result<(), AllocError> {
    let mut subject = Subject::Nothing;
    let mut nodes = Nodes {
        line: 0,
        wanted: String::new(alloc),
    };
    for (at, whole) in contents.lines().enumerate() {
        if whole.is_empty() || whole.starts_with('#') {
            continue;
        }
        let line = at.saturating_add(1);
        let place = Place { file, line };
        let (word, rest) = whole.split_once(' ').unwrap_or((whole, ""));
        if word == "node" {
            if nodes.wanted.is_empty() {
                nodes.line = line;
            }
            nodes.wanted.push_str(rest)?;
            nodes.wanted.push('\n')?;
            continue;
        }
        match subject_of(alloc, seen, report, place, word, rest)? {
            Some(next) => {
                check_nodes(alloc, report, file, &subject, &nodes)?;
                nodes.wanted = String::new(alloc);
                subject = next;
            }
            None => check_line(alloc, report, place, &subject, word, rest)?,
        }
    }
    check_nodes(alloc, report, file, &subject, &nodes)
}
