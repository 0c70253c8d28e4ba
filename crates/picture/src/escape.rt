// Text within XML.
ghost use Rattle.std.specs.Prelude.{◌≡◌, ◌++◌, IfOk, string_bytes, OnOk};
ghost use Rattle.picture.specs.Escape.{entity, Escapes};

use std::alloc::{AllocError, Global};

// A character as XML wants it.
fn write_char(out: &mut String, c: char) -> Result<(), AllocError>
    ensures { OnOk result (string_bytes out.new ≡ string_bytes out.old ++ entity c) }
{
    match c {
        '&' => out.push_str("&amp;")?,
        '<' => out.push_str("&lt;")?,
        '>' => out.push_str("&gt;")?,
        '"' => out.push_str("&quot;")?,
        '\'' => out.push_str("&#39;")?,
        '\0'..='\u{1f}' | '\u{fffe}' | '\u{ffff}' => out.push('\u{fffd}')?,
        _ => out.push(c)?,
    }
    Ok(())
}

// The text with `&`, `<`, `>` and quotes written as XML wants them, and with a mark for each character that XML does not take.
pub fn escape(heap: Global, text: &str) -> Result<String, AllocError>
    ensures { IfOk result (λ s. Escapes text.now (string_bytes s)) }
{
    let mut out = String::new(heap);
    for c in text.chars() {
        write_char(&mut out, c)?;
    }
    Ok(out)
}
