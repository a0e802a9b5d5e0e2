// Reading bytes into a lent room. A read that fails ends what is read, as an end does.
#![tactic(auto)]

ghost use Rattle.std.specs.Prelude.{◌≡◌, ◌≤◌, length, take};

use std::io::Read;

// One read, and how many bytes it put in front of the room; none where it fails.
pub fn read_some(file: &mut impl Read, room: &mut [u8]) -> usize
    ensures { (result ≤ length room.new) × (result ≡ length (take result room.new)) }
{
    file.read(room).unwrap_or(0)
}

// Reads until the room is full, the file ends or a read fails. How many bytes stand in front of the room then.
pub fn read_full(file: &mut impl Read, room: &mut [u8]) -> usize
    ensures { (result ≤ length room.new) × (result ≡ length (take result room.new)) }
{
    let mut done = 0;
    while done < room.len() {
        match read_some(file, &mut room[done..]) {
            0 => break,
            n => done += n,
        }
    }
    done
}
