// The mistakes of a text, as a reader finds them.
ghost use Rattle.std.specs.Prelude.{◌≡◌, [], ◌∷◌, OnOk};
ghost use Rattle.text.specs.Told.{Blamed};

use crate::mistake::{Fault, Mistake};
use std::alloc::{AllocError, Global};

#[derive(Drop)]
pub struct Report {
    pub heap: Global,
    // the line that is read, counted from 1; 0, before the first
    pub line: usize,
    // the mistakes so far, in order
    pub mistakes: Vec<Mistake>,
}

impl Report {
    pub fn new(heap: Global) -> Report
        ensures line { result.line ≡ 0 }
        ensures mistakes { result.mistakes.items ≡ [] }
    {
        let mistakes = Vec::new(heap);
        Report {
            heap,
            line: 0,
            mistakes,
        }
    }

    // A mistake more, in the line that is read.
    pub fn blame(&mut self, fault: Fault, word: &[u8]) -> Result<(), AllocError>
        ensures { OnOk result (Blamed self.old self.new ((self.old.line, fault, word.now) ∷ [])) }
    {
        let line = self.line;
        let found = Vec::from_slice(self.heap, word)?;
        self.mistakes.push(Mistake { line, fault, found })?;
        Ok(())
    }
}
