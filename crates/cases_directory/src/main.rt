// The run cases of the directory: pages as texts, which the file stdin has, in Latin-1, and the most headings, topics and characters; with what must be
// written in the file stdout.
#![tactic(auto)]

mod groups;
mod limits;
mod texts;

use std::io;

fn main(rt: HostRuntime) -> io::Result<()> {
    groups::cases(&rt)?;
    limits::cases(&rt)
}
