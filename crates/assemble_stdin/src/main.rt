#![tactic(auto)]

use std::io;

fn main(rt: HostRuntime) -> io::Result<()> {
    assembly_io::assemble_from(&mut rt.reader(), &mut rt.stdout(), &mut rt.stderr())
}
