// A file on standard input, for the programs.
// A reader leaves open which bytes come, how many, and whether it fails.
// So what is promised is that the count fits its buffer, and no failure where there is no room.
#![tactic(auto)]

ghost use Rattle.std.specs.Prelude.{◌≤◌, length};
ghost use Rattle.input.specs.Input.{Within};

use std::io;

// One byte more than a deck file may have: 7 at line 1, whatever comes behind.
pub const FILE: usize = 65537;

const BLOCK: usize = 65536;

// What the reader has, to its end or until buf is full; how many bytes were read.
pub fn read(reader: &mut impl io::Read, buf: &mut [u8]) -> io::Result<usize>
    ensures { Within (length buf.new) result }
{
    let mut n = 0;
    // No `for`: how far a read comes is the reader's answer.
    while n < buf.len() {
        match reader.read(&mut buf[n..])? {
            0 => break,
            k => n += k,
        }
    }
    Ok(n)
}

// Reads until buf is full, the reader ends or a read fails; how many bytes were read.
pub fn read_full(reader: &mut impl io::Read, buf: &mut [u8]) -> usize
    ensures { result ≤ length buf.new }
{
    let mut n = 0;
    // No `for`: as in `read`.
    while n < buf.len() {
        match reader.read(&mut buf[n..]) {
            Ok(0) | Err(_) => break,
            Ok(k) => n += k,
        }
    }
    n
}

// A block of what is left; whether there was one. The block is no part of its callers' frames.
#[inline(never)]
fn skip_block(reader: &mut impl io::Read) -> bool {
    let mut buf = [0u8; BLOCK];
    read_full(reader, &mut buf) > 0
}

// The rest of a file too long, so that its writer isn't cut off. After 64 MiB it is. It answers nothing, so there is nothing to promise.
pub fn skip_rest(reader: &mut impl io::Read) {
    for _ in 0..1024 {
        if !skip_block(reader) {
            break;
        }
    }
}

// Hands the file on standard input to f, and then reads past a file too long; or says on standard error that it can't be read.
pub fn with_file<F: FnOnce(&[u8])>(rt: &HostRuntime, unread: &[u8], f: F)
    requires { F.IsAlwaysCallable f }
{
    let mut file = [0u8; FILE];
    let mut stdin = rt.stdin();
    match read(&mut stdin, &mut file) {
        Ok(n) => {
            f(&file[..n]);
            if n == FILE {
                skip_rest(&mut stdin);
            }
        }
        Err(_) => {
            let _ = rt.stderr().write_all(unread);
        }
    }
}
