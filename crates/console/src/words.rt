// The words of a command line: switches (`--bars`), options with a value (`--svg FILE`), and words by themselves.
ghost use Rattle.std.specs.Prelude.{◌≡◌, is_some, IfSome, IfOk, vec_len, string_bytes, option_copied, Decides, MatchOption, nat_lt};
ghost use Rattle.std.specs.List.{find, list_any};
ghost use Rattle.std.specs.Str.{bytes_eq};
ghost use Rattle.console.specs.Spoken.{Word, Spoken, Valued, Unvalued, Sorted};

use super::Fault;
use std::alloc::Global;
use std::env;

// An option and its value.
#[derive(Drop)]
pub struct Setting {
    name: String,
    value: String,
}

// The words as they were given, sorted by kind.
#[derive(Drop)]
pub struct Words {
    plain: Vec<String>,
    switches: Vec<String>,
    settings: Vec<Setting>,
}

// Whether a text is one of the words.
fn is_among(words: &[String], text: &str) -> bool
    ensures { result ≡ list_any (λ w. bytes_eq (string_bytes w) text.now) words.now }
{
    words.iter().any(|w| w.as_str() == text)
}

// The first option of a name.
fn first_named<'a>(settings: &'a [Setting], name: &str) -> Option<&'a Setting>
    ensures { option_copied result ≡ find (λ s. bytes_eq (string_bytes s.name) name.now) settings.now }
{
    settings.iter().find(|s| s.name.as_str() == name)
}

impl Words {
    fn none(heap: Global) -> Words
        ensures { Sorted 0 result }
    {
        Words {
            plain: Vec::new(heap),
            switches: Vec::new(heap),
            settings: Vec::new(heap),
        }
    }

    // Whether a switch was given.
    pub fn has(&self, switch: &str) -> bool
        ensures { Decides result (Spoken self.now.switches.items switch.now) }
    {
        is_among(self.switches.as_slice(), switch)
    }

    // The value of an option, the first one where it was given more than once.
    pub fn value(&self, option: &str) -> Option<&str>
        ensures { MatchOption result (Unvalued self.now.settings.items option.now) (λ v. Valued self.now.settings.items option.now v.now) }
    {
        let setting = first_named(self.settings.as_slice(), option)?;
        Some(setting.value.as_str())
    }

    // Word i of those by themselves.
    pub fn plain(&self, i: usize) -> Option<&str>
        ensures test { is_some result ≡ nat_lt i (vec_len self.now.plain) }
        ensures word { IfSome result (λ w. Word self.now.plain.items i w.now) }
    {
        Some(self.plain.get(i)?.as_str())
    }

    // The words by themselves, in order.
    pub fn all(&self) -> &[String]
        ensures { result.now ≡ self.now.plain.items }
    {
        self.plain.as_slice()
    }

    // How many words stand by themselves.
    pub fn count(&self) -> usize
        ensures { result ≡ vec_len self.now.plain }
    {
        self.plain.len()
    }
}

fn knows(known: &[&str], word: &str) -> bool {
    known.iter().any(|k| *k == word)
}

// Sorts the words by the switches and the options with a value that a program knows; refuses an option that isn't known, and one whose value is missing.
pub fn sorted(
    heap: Global,
    switches: &[&str],
    options: &[&str],
    words: Vec<String>,
) -> Result<Words, Fault>
    ensures { IfOk result (λ w. Sorted (vec_len words) w) }
{
    let mut out = Words::none(heap);
    let mut rest = words.into_iter();
    while let Some(word) = rest.next() {
        if knows(switches, word.as_str()) {
            out.switches.push(word)?;
        } else if knows(options, word.as_str()) {
            let Some(value) = rest.next() else {
                return Err(Fault::NoValue);
            };
            out.settings.push(Setting { name: word, value })?;
        } else if word.as_str().starts_with("--") {
            return Err(Fault::Unknown(word));
        } else {
            out.plain.push(word)?;
        }
    }
    Ok(out)
}

// The words that the program was called with, its own name left out.
pub fn given(rt: &HostRuntime, switches: &[&str], options: &[&str]) -> Result<Words, Fault> {
    let heap = rt.alloc();
    let words = env::args(rt)?.skip(1).collect(heap)?;
    sorted(heap, switches, options, words)
}
