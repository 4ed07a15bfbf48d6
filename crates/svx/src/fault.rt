ghost use Rattle.std.specs.Prelude.{◌≡◌};
ghost use Rattle.refusal.specs.Answers.{number_of, value_of};

use refusal::Refusal;
use svx_line::offer::Flaw;

/// Whose refusal a fault is: the text's, or the survey's own.
#[derive(Clone, Copy, Debug, PartialEq, Eq, Hash)]
pub enum Layer {
    Text,
    Survey,
}

/// A fault in reading: the refusal, its line from 1, its byte place in the text from 0, and its layer.
#[derive(Clone, Copy, Debug, PartialEq, Eq, Hash)]
pub struct Fault {
    pub cause: Refusal,
    pub line: usize,
    pub place: usize,
    pub layer: Layer,
}

impl Fault {
    /// What is wrong with a line of the text.
    pub fn in_text(flaw: Flaw, line: usize) -> Fault
        ensures { result ≡ record { cause = flaw.cause; line = line; place = flaw.place; layer = Layer.Text } }
    {
        Fault {
            cause: flaw.cause,
            line,
            place: flaw.place,
            layer: Layer::Text,
        }
    }

    /// The number of the refusal.
    pub fn number(&self) -> u32
        ensures { result ≡ number_of self.now.cause }
    {
        self.cause.number()
    }

    /// The value returned with it.
    pub fn value(&self) -> usize
        ensures { result ≡ value_of self.now.cause }
    {
        self.cause.value()
    }
}
