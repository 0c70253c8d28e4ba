// What is made of a plan: what is printed, the picture, the sheet, and the changed night.
use change::evening::Evening;
use console::words::Words;
use console::{Fault, write_output};
use level::levels::Levels;
use picture::bars::bars;
use picture::drawn::Drawn;
use picture::svg::svg;
use std::alloc::{AllocError, Global};

// What is printed, and the picture if one is asked for.
#[derive(Drop)]
pub struct Output {
    pub printed: String,
    pub picture: String,
}

// By task: the denominator of its amounts.
fn denominators(heap: Global, levels: &Levels, tasks: usize) -> Result<Vec<u64>, AllocError> {
    levels
        .of
        .iter()
        .take(tasks)
        .map(|group| levels.levels[(*group).min(95)].den())
        .collect(heap)
}

// Makes what is printed, lines or bars, and the picture.
pub fn make<'a>(
    rt: &HostRuntime,
    evening: &'a Evening,
    names: &'a [String],
    words: &Words,
) -> Result<Output, Fault> {
    let heap = rt.alloc();
    let levels = &evening.planned.levels;
    let parts = denominators(heap, levels, evening.night.tasks().len())?;
    let drawn = Drawn {
        night: &evening.night,
        names,
        loads: &levels.loads[0..evening.night.hours().min(96)],
        groups: &levels.groups[0..levels.count.min(96)],
        parts: parts.as_slice(),
        amounts: evening.amounts.as_slice(),
    };
    let printed = if words.has("--bars") {
        bars(heap, drawn)?
    } else {
        lines::plan_text(heap, drawn.loads, drawn.parts, drawn.amounts)?
    };
    let picture = match words.value("--svg") {
        Some(_) => svg(heap, drawn)?,
        None => String::new(heap),
    };
    Ok(Output { printed, picture })
}

// The first n bytes, or all.
fn front(bytes: &[u8], n: usize) -> &[u8] {
    &bytes[0..n.min(bytes.len())]
}

// Writes the picture, the sheet and the changed night into the files that are named.
pub fn write_files(
    rt: &HostRuntime,
    evening: &Evening,
    picture: &str,
    words: &Words,
) -> Result<(), Fault> {
    if let Some(name) = words.value("--svg") {
        write_output(rt, name, picture.as_bytes())?;
    }
    if let Some(name) = words.plain(1) {
        write_output(
            rt,
            name,
            front(evening.sheet.as_slice(), evening.planned.length),
        )?;
    }
    if let Some(name) = words.value("--changed") {
        let bytes = night::write(rt.alloc(), &evening.night)?;
        write_output(rt, name, bytes.as_slice())?;
    }
    Ok(())
}
