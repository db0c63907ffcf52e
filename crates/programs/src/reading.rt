// Standard input.
ghost use Rattle.std.specs.Prelude.{◌≡◌, ◌≤◌, length};

use std::io::{Input, Read};

// Reads until the buffer is full, the input ends or a read fails, and returns how many bytes stand at
// the buffer's start. A read that fails counts as the end of the input.
pub fn read_full(rt: &impl Input, buffer: &mut [u8]) -> usize
    ensures within { result ≤ length buffer.new }
    ensures size { length buffer.new ≡ length buffer.old }
{
    let mut input = rt.reader();
    let mut done = 0;
    while done < buffer.len() {
        match input.read(&mut buffer[done..]) {
            Ok(0) => return done,
            Ok(n) => done += n,
            Err(_) => return done,
        }
    }
    done
}
