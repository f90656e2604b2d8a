// A program's input, read whole into a room of its own.
#![tactic(auto)]

ghost use Rattle.std.specs.Prelude.{◌≡◌, ◌≤◌, IfOk, length};

use std::io::{self, Read};

// Reads until the room is full or the input ends, and answers how many bytes stand at its front. A read
// may give any number of bytes, and `read_exact` does not tell how many it had where the input ends.
pub fn read_full<R: Read>(input: &mut R, room: &mut [u8]) -> io::Result<usize>
    ensures in_room { IfOk result (λ n. n ≤ length room.new) }
    ensures same_length { length room.new ≡ length room.old }
{
    let mut done = 0;
    while done < room.len() {
        let n = input.read(&mut room[done..])?;
        if n == 0 {
            break;
        }
        done += n;
    }
    Ok(done)
}
