// The program: takes its arguments apart, reads and writes files, and prints.
#![tactic(auto)]

mod request;

use console::assembly::assemble;
use console::example::example;
use console::failure::{Failure, status_of};
use console::help::HELP;
use console::listing_text::{listing_table, versions_of};
use console::messages::{Explanation, question_numbered};
use console::readable::description;
use console::rule::Rule;
use console::script::play;
use console::text::Text;
use console::words::{decimal, small_number};
use request::{Request, request_of};
use std::process::ExitCode;
use std::{env, fs, io};

fn main(rt: HostRuntime) -> ExitCode {
    status_of(&rt, "midraukle", run(&rt))
}

fn run(rt: &HostRuntime) -> Result<(), Failure> {
    let heap = rt.alloc();
    let args: Vec<String> = env::args(rt)?.skip(1).collect(heap)?;
    let words: Vec<&str> = args.iter().map(|arg| arg.as_str()).collect(heap)?;
    let request = request_of(words.as_slice()).map_err(|no| message(rt, no.command, no.usage))?;
    match request {
        Request::Example => print!(rt; "{}", example(heap)?)?,
        Request::Show { rule } => show(rt, rule)?,
        Request::Assemble { text, out } => assemble_file(rt, text, out)?,
        Request::Listing { listing, today } => show_listing(rt, listing, today)?,
        Request::Script => play(rt, rt.stdin())?,
        Request::Explain { number } => explain(rt, number)?,
        Request::Help => rt.print(HELP)?,
    }
    Ok(())
}

fn show(rt: &HostRuntime, name: &str) -> Result<(), Failure> {
    let file = fs::read(rt, name).map_err(|e| unreadable(rt, name, e))?;
    let rule = Rule::of_file(rt.alloc(), name, file.as_slice())?;
    print!(rt; "{}", description(rt.alloc(), &rule)?)?;
    Ok(())
}

// The versions of a listing file, with what the host answers of each on a day.
fn show_listing(rt: &HostRuntime, name: &str, today: &str) -> Result<(), Failure> {
    let day = small_number(today).map_err(|_| {
        message(
            rt,
            today,
            "a day was expected, in decimal digits, at most 65535",
        )
    })?;
    let file = text_of(rt, name)?;
    let text = Text {
        name,
        text: file.as_str(),
    };
    let versions = versions_of(rt.alloc(), text)?;
    print!(rt;
        "{}",
        listing_table(rt.alloc(), name, versions.as_slice(), day)?
    )?;
    Ok(())
}

// Writes the file only once the whole text is assembled.
fn assemble_file(rt: &HostRuntime, name: &str, out: &str) -> Result<(), Failure> {
    let file = text_of(rt, name)?;
    let text = Text {
        name,
        text: file.as_str(),
    };
    let bytes = assemble(rt.alloc(), text)?;
    let length = bytes.len();
    fs::write(rt, out, bytes.as_slice()).map_err(|e| {
        Failure::told(format!(in rt.alloc(); "{out}: cannot be written: {e}"))
    })?;
    println!(rt; "{out}: {length} bytes")?;
    Ok(())
}

fn explain(rt: &HostRuntime, number: &str) -> Result<(), Failure> {
    let value = decimal(number).ok_or_else(|| {
        message(
            rt,
            number,
            "a question's number was expected, in decimal digits",
        )
    })?;
    let question = question_numbered(value).ok_or_else(|| {
        message(
            rt,
            number,
            "no question has this number; there are 1 to 10, 12 to 14 and 40 to 44",
        )
    })?;
    println!(rt; "question {value}: {}", Explanation(question))?;
    Ok(())
}

fn text_of(rt: &HostRuntime, name: &str) -> Result<String, Failure> {
    fs::read_to_string(rt, name).map_err(|e| unreadable(rt, name, e))
}

fn message(rt: &HostRuntime, subject: &str, text: &str) -> Failure {
    Failure::told(format!(in rt.alloc(); "{subject}: {text}"))
}

fn unreadable(rt: &HostRuntime, name: &str, e: io::Error) -> Failure {
    Failure::told(format!(in rt.alloc(); "{name}: cannot be read: {e}"))
}
