// The run cases of decoding and encoding by charmaps that are read, with what must be written in the file stdout.
#![tactic(auto)]

mod read;
mod refused;
mod show;

use std::io;

fn main(rt: HostRuntime) -> io::Result<()> {
    read::cases(&rt)?;
    refused::cases(&rt)
}
