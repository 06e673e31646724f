// What a program reads.
ghost use Rattle.std.specs.Prelude.{◌≤◌, length};

use std::io::Read;

/// The longest input that is read to its end.
pub const LONGEST: usize = 65536;

/// Reads until the room is full, the input ends or a read fails, and returns what was read.
pub fn read_into(room: &mut [u8]) -> &[u8]
    ensures { length result.now ≤ length room.old }
{
    let count = io::read_full(0, room);
    &room[..count]
}

/// The input of any handle, as far as it is no longer than `LONGEST`. Fails where a read does, or where there is no memory for it.
pub fn read_input(rt: &(impl Input + AllocGlobal)) -> std::io::Result<Vec<u8>> {
    let mut text = Vec::new(rt.alloc());
    rt.reader().take(LONGEST as u64).read_to_end(&mut text)?;
    Ok(text)
}
