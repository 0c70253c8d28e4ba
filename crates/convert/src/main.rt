// Turns a night as people write it into bytes, and back.
#![tactic(auto)]

use console::nights::{Form, named_night_from};
use console::words::Words;
use console::{About, Fault, Work, program, read_input, usage, write_output};
use lines::RefusedLine;
use std::process::ExitCode;
use text::writer::write_text;

const HELP: &str = "convert --to-bytes TEXT NIGHT
convert --to-text NIGHT TEXT

Turns a night as people write it, in the file TEXT, into the bytes of a night in the file NIGHT, or bytes into a text.
Either may be - for standard input or output. Bytes hold no names. What is wrong is said on standard error, all mistakes
of a text in one go; then nothing is written, and the status is 1.

  --help     prints this
  --version  prints the version

Example: convert --to-bytes examples/island.txt island.night";

// The bytes of the night in a text.
fn bytes_of(rt: &HostRuntime, name: &str) -> Result<Vec<u8>, Fault> {
    let read = named_night_from(rt, name, Form::Text)?;
    Ok(night::write(rt.alloc(), &read.night)?)
}

// The text of the night in some bytes.
fn text_of(rt: &HostRuntime, name: &str) -> Result<String, Fault> {
    let heap = rt.alloc();
    let bytes = read_input(rt, name)?;
    let night = night::read(heap, bytes.as_slice()).map_err(|e| Fault::NotNight(RefusedLine::of(
        e,
    )))?;
    let nameless: Vec<String> = Vec::new(heap);
    Ok(write_text(heap, &night, nameless.as_slice())?)
}

const ABOUT: About = About {
    name: "convert",
    version: "1.0.0",
    help: HELP,
    switches: &["--help", "--version", "--to-bytes", "--to-text"],
    options: &[],
};

#[derive(Drop)]
struct Converter;

impl Work for Converter {
    // Turns the file that the words name into another, by their direction.
    fn run(self, rt: &HostRuntime, words: &Words) -> Result<(), Fault> {
        let (Some(from), Some(to), None) = (words.plain(0), words.plain(1), words.plain(2)) else {
            return Err(usage(rt, "wanted: two files")?);
        };
        match (words.has("--to-bytes"), words.has("--to-text")) {
            (true, false) => write_output(rt, to, bytes_of(rt, from)?.as_slice()),
            (false, true) => write_output(rt, to, text_of(rt, from)?.as_bytes()),
            _ => Err(usage(rt, "wanted: --to-bytes or --to-text")?),
        }
    }
}

fn main(rt: HostRuntime) -> ExitCode {
    program(&rt, ABOUT, Converter)
}
