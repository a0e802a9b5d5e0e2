// The run cases of the compiler, with what must be written in the file stdout. The sources that are text stand in the file stdin.
#![tactic(auto)]

mod bytes;
mod limits;
mod longest;
mod show;
mod texts;

use std::io;

fn main(rt: HostRuntime) -> io::Result<()> {
    texts::cases(&rt)?;
    bytes::cases(&rt)?;
    limits::cases(&rt)?;
    longest::cases(&rt)
}
