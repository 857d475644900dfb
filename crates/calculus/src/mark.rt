// Two letters that stand for no kind and for no form.
use std::error::Error;
use std::fmt;

#[derive(Clone, Copy, PartialEq, Eq, Debug)]
pub struct UnknownMark(pub [u8; 2]);

impl fmt::Display for UnknownMark {
    fn fmt<W: fmt::Write>(&self, f: &mut fmt::Formatter<W>) -> fmt::Result {
        let [a, b] = self.0;
        write!(
            f,
            "no kind or form has the mark {}{}",
            char::from(a),
            char::from(b)
        )
    }
}

impl Error for UnknownMark {}
