// Two files replaced, each in whole.
use crate::failing::{Failure, failed};
use std::fs::{File, OpenFile, OpenOptions};
use std::io::{ErrorKind, Write};
use std::rt::Files;
use std::{fs, io};

// Makes a new file beside another, under the first name that no file has.
fn create_beside<R: Files + AllocGlobal>(rt: &R, target: &str) -> io::Result<(String, R::File)> {
    for i in 0..1000000u32 {
        let name = format!(in rt.alloc(); "{target}.{i:06}")?;
        match File::create_new(rt, name.as_str()) {
            Ok(file) => return Ok((name, file)),
            Err(e) if e.kind() == ErrorKind::AlreadyExists => {}
            Err(e) => return Err(e),
        }
    }
    Err(io::Error::from(ErrorKind::AlreadyExists))
}

// Fills an open file, with its bytes on the disk before it takes an old one's place.
fn fill<F: Write + OpenFile>(file: &mut F, bytes: &[u8]) -> io::Result<()> {
    file.write_all(bytes)?;
    file.sync_all()
}

// Removes a file that is in nobody's way where that fails.
fn remove(files: &impl Files, name: &str) {
    let _ = fs::remove_file(files, name);
}

// Writes the file that is to take the target's place, and gives its name; where that fails, nothing is left of it.
fn write_beside<R: Files + AllocGlobal>(rt: &R, target: &str, bytes: &[u8]) -> io::Result<String> {
    let (name, mut file) = create_beside(rt, target)?;
    fill(&mut file, bytes).inspect_err(|_| remove(rt, name.as_str()))?;
    Ok(name)
}

// Refuses a name that a folder has; a rename over it would fail, and then it may be late to leave all as it is.
fn refuse_folder(files: &impl Files, name: &str) -> io::Result<()> {
    match OpenOptions::new().read(true).write(true).open(files, name) {
        Err(e) if e.kind() == ErrorKind::IsADirectory => Err(e),
        _ => Ok(()),
    }
}

// Renames both new files. Two renames are not one: where the second fails, it is said that the first is done.
fn replace(files: &impl Files, rules: &str, names: &str) -> Result<(), Failure> {
    fs::rename(files, rules, "rules.bin").map_err(|e| {
        remove(files, rules);
        remove(files, names);
        failed("rules.bin", e)
    })?;
    fs::rename(files, names, "names.bin").map_err(|e| {
        remove(files, names);
        failed("rules.bin is new, but names.bin", e)
    })
}

// Stores a program and its name list, both new files written before either takes an old one's place.
pub fn store<R: Files + AllocGlobal>(rt: &R, program: &[u8], list: &[u8]) -> Result<(), Failure> {
    refuse_folder(rt, "rules.bin").map_err(|e| failed("rules.bin", e))?;
    refuse_folder(rt, "names.bin").map_err(|e| failed("names.bin", e))?;
    let rules = write_beside(rt, "rules.bin", program).map_err(|e| failed("rules.bin", e))?;
    let names = write_beside(rt, "names.bin", list).map_err(|e| {
        remove(rt, rules.as_str());
        failed("names.bin", e)
    })?;
    replace(rt, rules.as_str(), names.as_str())
}
