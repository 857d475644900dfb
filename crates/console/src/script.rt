// The script interpreter: reads commands, one a line, and prints a line for each.
use crate::command::{LineError, command_of};
use crate::failure::Failure;
use crate::session::{Answer, AnswerLine, Session};
use std::alloc::Global;
use std::io::{BufRead, BufReader, Read};

// Plays a script to its end.
pub fn play<R: Read + Drop>(rt: &HostRuntime, input: R) -> Result<(), Failure> {
    let heap = rt.alloc();
    let mut session = Session::new(heap);
    for line in BufReader::new(heap, input)?.split(heap, b'\n') {
        let line = line?;
        if let Some(answer) = answer_to(heap, &mut session, line.as_slice())? {
            print!(rt; "{answer}")?;
        }
    }
    Ok(())
}

// The answer to a line, with its line end, or none where the line is blank or a comment.
fn answer_to(heap: Global, session: &mut Session, line: &[u8]) -> Result<Option<String>, Failure> {
    let answer = match result_of(heap, session, line) {
        Ok(None) => return Ok(None),
        Ok(Some(answer)) => format!(in heap; "{}\n", AnswerLine { session, answer })?,
        Err(LineError::Memory) => return Err(Failure::Memory),
        Err(error) => format!(in heap; "error: {error}\n")?,
    };
    Ok(Some(answer))
}

fn result_of<'a>(
    heap: Global,
    session: &mut Session,
    line: &'a [u8],
) -> Result<Option<Answer>, LineError<'a>> {
    let line = std::str::from_utf8(line).map_err(|_| LineError::NotText)?;
    command_of(heap, line)?
        .map(|command| session.perform(command))
        .transpose()
}
