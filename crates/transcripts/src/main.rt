// Plays each script that is named on the command line; a name that ends in .txt is a text to assemble and show.
#![tactic(auto)]

use console::assembly::assemble;
use console::failure::{Failure, status_of};
use console::hexadecimal::Hex;
use console::listing_text::{listing_table, versions_of};
use console::readable::description;
use console::rule::Rule;
use console::script::play;
use console::text::Text;
use std::fs::File;
use std::process::ExitCode;
use std::{env, fs};

fn main(rt: HostRuntime) -> ExitCode {
    status_of(&rt, "transcripts", run(&rt))
}

fn run(rt: &HostRuntime) -> Result<(), Failure> {
    for name in env::args(rt)?.skip(1) {
        println!(rt; "== {name}")?;
        if name.as_str().ends_with(".txt") {
            show_text(rt, name.as_str())?;
        } else if name.as_str().ends_with(".listing") {
            show_listing(rt, name.as_str())?;
        } else {
            play(rt, File::open(rt, name.as_str())?)?;
        }
    }
    Ok(())
}

// The file that a text says, in hexadecimal, and the rule that it says; or why there is none.
fn show_text(rt: &HostRuntime, name: &str) -> Result<(), Failure> {
    let heap = rt.alloc();
    let file = fs::read_to_string(rt, name)?;
    let text = Text {
        name,
        text: file.as_str(),
    };
    match assemble(heap, text) {
        Ok(bytes) => {
            println!(rt; "{}", Hex(bytes.as_slice()))?;
            let rule = Rule::of_file(heap, name, bytes.as_slice())?;
            print!(rt; "{}", description(heap, &rule)?)?;
        }
        Err(failure) => println!(rt; "{failure}")?,
    }
    Ok(())
}

// The table of a listing, or why there is none.
fn show_listing(rt: &HostRuntime, name: &str) -> Result<(), Failure> {
    let heap = rt.alloc();
    let file = fs::read_to_string(rt, name)?;
    let text = Text {
        name,
        text: file.as_str(),
    };
    match versions_of(heap, text) {
        Ok(versions) => print!(rt; "{}", listing_table(heap, name, versions.as_slice(), 300)?)?,
        Err(failure) => println!(rt; "{failure}")?,
    }
    Ok(())
}
