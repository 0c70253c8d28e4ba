// Reading a night that people wrote.
ghost use Rattle.std.specs.Prelude.{MatchResult};
ghost use Rattle.text.specs.Lines.{wrong_text};
ghost use Rattle.text.specs.Reader.{Says};
ghost use Rattle.text.specs.Unread.{Blames};

use crate::lines::read_lines;
use crate::reading::Reading;
use crate::unread::{ReadError, accept, reject};
use night::night::Night;
use std::alloc::Global;

// A night, and the name of each of its tasks, empty where it has none.
#[derive(Drop)]
pub struct TextNight {
    pub night: Night,
    pub names: Vec<String>,
}

// The night that a text says; else all that is wrong with it.
pub fn read_text(heap: Global, text: &[u8]) -> Result<TextNight, ReadError>
    ensures { MatchResult result (λ t. Says text.now t) (λ e. Blames text.now (wrong_text text.now) e) }
{
    reject(heap, text)?;
    let Reading {
        hours,
        tasks,
        names,
        report,
    } = read_lines(heap, text)?;
    accept(report.mistakes)?;
    let night = Night::new(hours.unwrap(), tasks).unwrap();
    Ok(TextNight { night, names })
}
