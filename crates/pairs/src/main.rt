// The pairs program: it reads locale.src and charmap.src, then standard input, and compares each two neighbouring lines.
#![tactic(auto)]

use std::io;

fn main(rt: HostRuntime) -> io::Result<()> {
    pairs_run::run(&rt, b"locale.src", b"charmap.src", &mut rt.stdin())
}
