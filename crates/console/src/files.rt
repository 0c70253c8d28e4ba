// Reading a file or standard input, and writing a file whole or not at all.
use crate::fault::Fault;
use std::alloc::Global;
use std::io::{Read, Write};
use std::rt::Files;
use std::{fs, io};

// What went wrong with a file, with its name.
fn at_file(heap: Global, name: &str, e: io::Error) -> Result<Fault, Fault> {
    Ok(Fault::File(String::from_str(heap, name)?, e))
}

// The bytes of a file, or of standard input where its name is `-`.
pub fn read_input(rt: &HostRuntime, name: &str) -> Result<Vec<u8>, Fault> {
    let heap = rt.alloc();
    if name == "-" {
        let mut bytes = Vec::new(heap);
        rt.stdin().read_to_end(&mut bytes)?;
        return Ok(bytes);
    }
    fs::read(rt, name).try_map_err(|e| at_file(heap, name, e))
}

// Writes a file whole, or standard output where its name is `-`. What stands there and is no plain file, as a device or a link, is written straight.
pub fn write_output(rt: &HostRuntime, name: &str, bytes: &[u8]) -> Result<(), Fault> {
    if name == "-" {
        rt.stdout().write_all(bytes)?;
        return Ok(());
    }
    let wrote = if is_special(rt, name) {
        fs::write(rt, name, bytes)
    } else {
        write_whole(rt, name, bytes)
    };
    wrote.try_map_err(|e| at_file(rt.alloc(), name, e))
}

// Whether something stands under a name that is no plain file.
fn is_special(rt: &HostRuntime, name: &str) -> bool {
    fs::symlink_metadata(rt, name).is_ok_and(|found| !found.is_file())
}

// Writes a neighbour first, which then takes the file's name, so that no half-written file is left.
fn write_whole(rt: &HostRuntime, name: &str, bytes: &[u8]) -> io::Result<()> {
    let part = format!(in rt.alloc(); "{name}.part")?;
    let wrote = write_and_rename(rt, part.as_str(), name, bytes);
    if wrote.is_err() {
        let _ = fs::remove_file(rt, part.as_str());
    }
    wrote
}

fn write_and_rename(rt: &HostRuntime, part: &str, name: &str, bytes: &[u8]) -> io::Result<()> {
    fs::write(rt, part, bytes)?;
    fs::rename(rt, part, name)
}
