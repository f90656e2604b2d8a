// The listing program's reading and writing: an image from a reader, its listing to a writer, a
// buffer at a time.
#![tactic(auto)]

use listing::list;
use reading::read_full;
use std::io::{self, Read, Write};

// One byte more than an image may have tells those that are too long.
const READ: usize = 65537;

// As many bytes as a page of the listing may have.
const PAGE: usize = 65536;

// Page after page. The address that a page answers is where the next begins, so nothing is counted here.
fn write_listing<W: Write>(output: &mut W, image: &[u8]) -> io::Result<()> {
    let mut page = [0u8; PAGE];
    let mut next = 0;
    while next < image.len() {
        let listed = list(image, next, &mut page);
        output.write_all(&page[..listed.length])?;
        next = listed.next;
    }
    Ok(())
}

// Reads an image, and writes its listing.
pub fn list_from<R: Read, W: Write>(input: &mut R, output: &mut W) -> io::Result<()> {
    let mut image = [0u8; READ];
    let n = read_full(input, &mut image)?;
    write_listing(output, &image[..n])
}
