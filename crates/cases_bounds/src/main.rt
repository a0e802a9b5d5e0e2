// The run cases of the directory that are starts and lengths, with what must be written in the file stdout.
#![tactic(auto)]

mod places;

use std::io;

fn main(rt: HostRuntime) -> io::Result<()> {
    places::cases(&rt)
}
