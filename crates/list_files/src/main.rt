// The listing program's work on each image of data/: what it writes is their listings, one after the
// other, in the order of the names below.
#![tactic(auto)]

use std::fs;
use std::io::{self, Write};
use std::rt::Files;

// A file that cannot be opened leaves a line, since an empty image has no listing either.
fn list_file<R: Files + Alloc, W: Write>(rt: &R, output: &mut W, name: &str) -> io::Result<()> {
    match fs::open(rt, name) {
        Ok(mut file) => image_io::list_from(&mut file, output),
        Err(_) => writeln!(output, "{name} cannot be opened"),
    }
}

fn main(rt: HostRuntime) -> io::Result<()> {
    let mut output = rt.stdout();
    for name in [
        "odd",
        "none",
        "halves_low",
        "halves_high",
        "halves_long",
        "words",
        "sort",
        "sort_short",
        "too_long",
    ] {
        list_file(&rt, &mut output, name)?;
    }
    Ok(())
}
