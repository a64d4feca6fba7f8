// How the examples are printed: the values that an entry answers, or the number of the refusal.
use rules::Refusal;
use std::fmt;

// Values as the desk prints them.
pub(crate) trait Show {
    fn show<W: fmt::Write>(&self, f: &mut fmt::Formatter<W>) -> fmt::Result;
}

// What an entry answers.
#[derive(Clone, Copy)]
pub(crate) struct Shown<T>(pub Result<T, Refusal>);

impl<T: Show> fmt::Display for Shown<T> {
    fn fmt<W: fmt::Write>(&self, f: &mut fmt::Formatter<W>) -> fmt::Result {
        match &self.0 {
            Ok(values) => values.show(f),
            Err(refusal) => write!(f, "refusal {}", refusal.number()),
        }
    }
}
