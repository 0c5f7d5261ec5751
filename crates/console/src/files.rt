// A file, read to its end or as far as the room goes.
ghost use Rattle.std.specs.Prelude.{◌≡◌, ◌≤◌, length, IfOk, option_map};
ghost use Rattle.console.specs.Serving.Beginning.{file_in};

use std::rt::Files;
use std::{fs, io};

// How many bytes a reader gives until it ends or the room is full.
fn read_from<F: io::Read>(file: &mut F, room: &mut [u8]) -> io::Result<usize>
    ensures { IfOk result (λ n. n ≤ length room.new) }
{
    let mut done = 0;
    while done < room.len() {
        let n = file.read(&mut room[done..])?;
        if n == 0 {
            break;
        }
        done += n;
    }
    Ok(done)
}

pub fn read_all<R: Files>(rt: &R, path: &str, room: &mut [u8]) -> io::Result<usize>
    ensures { IfOk result (λ n. n ≤ length room.new) }
{
    let mut file = fs::open(rt, path)?;
    read_from(&mut file, room)
}

// The file, by how many bytes of it were read into a room; none, where it can't be read.
pub fn file_in(read: io::Result<usize>, room: &[u8]) -> Option<&[u8]>
    requires { IfOk read (λ n. n ≤ length room.now) }
    ensures { option_map (λ bytes. bytes.now) result ≡ file_in room.now read }
{
    match read {
        Ok(n) => Some(&room[..n]),
        Err(_) => None,
    }
}
