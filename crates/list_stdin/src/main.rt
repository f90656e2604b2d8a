#![tactic(auto)]

use std::io;

fn main(rt: HostRuntime) -> io::Result<()> {
    image_io::list_from(&mut rt.reader(), &mut io::writer(&rt))
}
