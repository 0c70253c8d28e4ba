// What is wrong with a text, and where.
use std::fmt;

#[derive(Clone, Copy, PartialEq, Eq, Debug)]
pub enum Fault {
    // longer than the longest text that is read
    Long,
    // not UTF-8
    Letters,
    // no `hours N` with N from 1 to 96, where it was expected
    Header,
    // not one colon
    Colon,
    // the last word before the colon, if there is one, is no number
    NotUnits,
    // units above a million
    ManyUnits,
    // neither an hour nor a range
    NotHour,
    // a range whose end lies before its start
    Backward,
    // an hour that is not below the number of hours
    Late(usize),
    // no hour after the colon
    NoHour,
    // the 201st task
    ManyTasks,
    // no change, where one was expected
    NotChange,
}

impl Fault {
    // Whether its message has the word that it is about: a mistake's fields are public, so one may have a word that it isn't about.
    fn has_word(self) -> bool {
        matches!(
            self,
            Fault::NotUnits | Fault::ManyUnits | Fault::NotHour | Fault::Backward | Fault::Late(_)
        )
    }
}

// A fault, with its line, counted from 1, and the word that it is about, empty where it is about none.
#[derive(Drop)]
pub struct Mistake {
    pub line: usize,
    pub fault: Fault,
    // A word in the variants of `Fault` would make it own memory, and no longer `Copy`.
    pub found: Vec<u8>,
}

// What is said before the word.
fn before(fault: Fault, word: &str) -> &'static str {
    match fault {
        Fault::Long => "the text is longer than 1048576 bytes",
        Fault::Letters => "not UTF-8",
        Fault::Header => "expected 'hours N' with N from 1 to 96",
        Fault::Colon => "expected one colon, between units and hours",
        Fault::NotUnits if word.is_empty() => "expected units before the colon",
        Fault::NotUnits => "expected units before the colon, found '",
        Fault::ManyUnits => "units ",
        Fault::NotHour => "expected an hour as 5 or hours as 0-4, found '",
        Fault::Backward => "range ",
        Fault::Late(_) if word.contains('-') => "hours ",
        Fault::Late(_) => "hour ",
        Fault::NoHour => "no hour",
        Fault::ManyTasks => "more than 200 tasks",
        Fault::NotChange => "expected 'comes UNITS : HOURS', 'goes TASK' or 'more TASK UNITS'",
    }
}

// What is said behind it.
fn after(fault: Fault, word: &str) -> &'static str {
    match fault {
        Fault::NotUnits if word.is_empty() => "",
        Fault::NotUnits | Fault::NotHour => "'",
        Fault::ManyUnits => " are above 1000000",
        Fault::Backward => " runs backward",
        Fault::Late(_) if word.contains('-') => " are not all below ",
        Fault::Late(_) => " is not below ",
        _ => "",
    }
}

impl fmt::Display for Mistake {
    fn fmt<W: fmt::Write>(&self, f: &mut fmt::Formatter<W>) -> fmt::Result {
        let line = self.line;
        let word = if self.fault.has_word() {
            std::str::from_utf8(self.found.as_slice()).unwrap_or("?")
        } else {
            ""
        };
        let before = before(self.fault, word);
        let after = after(self.fault, word);
        write!(f, "line {line}: {before}{word}{after}")?;
        match self.fault {
            Fault::Late(hours) => write!(f, "{hours}"),
            _ => Ok(()),
        }
    }
}
