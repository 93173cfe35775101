// Why a script, or one of its cases, is not played.
use std::fmt;
use std::fmt::Display;

#[derive(Clone, Copy)]
pub(crate) enum Fault {
    LongScript,
    // It has a byte that no script has, or a number that is too large.
    OddScript,
    CutShort,
    AboveLimit,
}

impl Display for Fault {
    fn fmt<W: fmt::Write>(&self, f: &mut fmt::Formatter<W>) -> fmt::Result {
        f.write_str(match self {
            Fault::LongScript => "the script is too long",
            Fault::OddScript => "the script has a byte or a number that no script has",
            Fault::CutShort => "the script ends within a case",
            Fault::AboveLimit => "a number of the case is above its limit",
        })
    }
}
