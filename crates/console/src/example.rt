// The example that the program shows: a rule file taken into tables and written back.
use crate::failure::Failure;
use crate::hexadecimal::Hex;
use crate::messages::RefusalLine;
use crate::readable::description;
use crate::rule::Rule;
use std::alloc::Global;

// A function of a function, applied to the successor: AP LA6 AP VA0 ZE LA0 SU VA0, where entry 6 is TF0/0.
const RULE: [u8; 60] = *b"\
    RU\x01\x00\x08\x00\
    TF\x00\x00\x00\x00\
    AP\x00\x00\x00\x00\
    LA\x06\x00\x00\x00\
    AP\x00\x00\x00\x00\
    VA\x00\x00\x00\x00\
    ZE\x00\x00\x00\x00\
    LA\x00\x00\x00\x00\
    SU\x00\x00\x00\x00\
    VA\x00\x00\x00\x00\
    ";

// Each stage of the example as text.
pub fn example(heap: Global) -> Result<String, Failure> {
    let mut text = String::new(heap);
    let length = RULE.len();
    writeln!(
        text,
        "An example; midraukle help lists the commands.\n\nA rule file of {length} bytes, a record a line:"
    )?;
    for record in RULE.chunks(6) {
        writeln!(text, "  {}", Hex(record))?;
    }
    let rule = Rule::of_file(heap, "example", &RULE)?;
    let described = description(heap, &rule)?;
    writeln!(text, "\nLoaded: {described}")?;
    let file = rule.to_file(heap)?.map_err(|refusal| {
        Failure::told(format!(in heap; "example: {}", RefusalLine(refusal)))
    })?;
    if file.as_slice() != RULE.as_slice() {
        return Err(Failure::told(String::from_str(
            heap,
            "example: the bytes written back differ from the file",
        )));
    }
    writeln!(text, "Written back: {length} bytes, equal to the file.")?;
    Ok(text)
}
