// What the arguments of the program ask for.

// What is asked for. It is read before anything is done, so it is a value and no closure.
#[derive(Clone, Copy)]
pub enum Request<'a> {
    Example,
    Show { rule: &'a str },
    Assemble { text: &'a str, out: &'a str },
    Listing { listing: &'a str, today: &'a str },
    Script,
    Explain { number: &'a str },
    Help,
}

// Arguments that ask for nothing: there is no such command, or the others do not fit it.
#[derive(Clone, Copy)]
pub struct Unreadable<'a> {
    pub command: &'a str,
    pub usage: &'static str,
}

// The request that the arguments say, the program's name left out.
pub fn request_of<'a>(args: &[&'a str]) -> Result<Request<'a>, Unreadable<'a>> {
    match args {
        [] => Ok(Request::Example),
        ["show", rule] => Ok(Request::Show { rule }),
        ["assemble", text, out] => Ok(Request::Assemble { text, out }),
        ["listing", listing, today] => Ok(Request::Listing { listing, today }),
        ["script"] => Ok(Request::Script),
        ["explain", number] => Ok(Request::Explain { number }),
        ["help" | "--help" | "-h"] => Ok(Request::Help),
        [command, ..] => Err(Unreadable {
            command,
            usage: usage_of(command),
        }),
    }
}

// What a command's arguments have to be, or which commands there are where this is none.
fn usage_of(command: &str) -> &'static str {
    match command {
        "show" => "one argument was expected: midraukle show RULE",
        "assemble" => "two arguments were expected: midraukle assemble TEXT OUT",
        "listing" => "two arguments were expected: midraukle listing LISTING TODAY",
        "script" => "no argument was expected: midraukle script",
        "explain" => "one argument was expected: midraukle explain NUMBER",
        "help" | "--help" | "-h" => "no argument was expected: midraukle help",
        _ => "no such command; there are show, assemble, listing, script, explain and help",
    }
}
