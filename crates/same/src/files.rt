// A file among the arguments.
ghost use Rattle.std.specs.Prelude.{◌≡◌, take, IfSome, IfOk};
ghost use Rattle.io.specs.Counts.{IsPrefixLen};

use show::{out, text};
use std::io::{Error, ErrorKind, Read};
use std::rt::{Env, Files};

// Why a file is not read whole.
#[derive(Clone, Copy)]
pub enum Unread {
    NotThere,
    Unopened,
    Directory,
    Failed,
    TooLong,
}

// What a read that failed says of its file.
impl From<Error> for Unread {
    fn from(error: Error) -> Unread {
        if error.kind() == ErrorKind::IsADirectory {
            return Unread::Directory;
        }
        Unread::Failed
    }
}

// Reads a file that is open whole into the start of a buffer.
fn read_open<F: Read>(file: &mut F, buffer: &mut [u8]) -> Result<usize, Unread>
    ensures within { IfOk result (λ n. IsPrefixLen n buffer.new) }
    ensures whole { IfOk result (λ n.
        IfSome (F.remaining file.old) (λ bytes. bytes ≡ take n buffer.new)) }
{
    let (count, outcome) = command::fill(file, buffer);
    outcome?;
    let mut more = [0u8; 1];
    if file.read(&mut more)? > 0 {
        return Err(Unread::TooLong);
    }
    Ok(count)
}

// Reads a file whole into the start of a buffer.
fn read_whole(rt: &impl Files, path: &[u8], buffer: &mut [u8]) -> Result<usize, Unread>
    ensures { IfOk result (λ n. IsPrefixLen n buffer.new) }
{
    match command::open_file(rt, path) {
        Ok(mut file) => read_open(&mut file, buffer),
        Err(error) => {
            if error.kind() == ErrorKind::NotFound {
                return Err(Unread::NotThere);
            }
            Err(Unread::Unopened)
        }
    }
}

// What is wrong with a file.
fn wrong(role: &str, path: &[u8], what: &str) {
    out!("error: the {role} '");
    text(path);
    out!("' {what}\n");
}

fn too_long(role: &str, path: &[u8], most: usize, hdf5: bool) {
    out!("error: the {role} '");
    text(path);
    out!("' has more than {most} bytes");
    if hdf5 {
        out!(": it is an HDF5 file, not bytes taken from one");
    }
    out!("\n");
}

// How many bytes were read; or none, where a line says what is wrong.
fn whole_or_line(rt: &impl Files, role: &str, path: &[u8], buffer: &mut [u8]) -> Option<usize>
    ensures { IfSome result (λ n. IsPrefixLen n buffer.new) }
{
    match read_whole(rt, path, buffer) {
        Ok(0) => wrong(role, path, "is empty"),
        Ok(n) => return Some(n),
        Err(Unread::NotThere) => wrong(role, path, "is not there"),
        Err(Unread::Unopened) => wrong(role, path, "cannot be opened"),
        Err(Unread::Directory) => wrong(role, path, "is a directory"),
        Err(Unread::Failed) => wrong(role, path, "cannot be read"),
        Err(Unread::TooLong) => too_long(role, path, buffer.len(), command::is_hdf5_file(buffer)),
    }
    None
}

// Reads the file that an argument names into the start of a buffer: its length; or none, where a line says what is wrong.
pub fn argument(rt: &(impl Env + Files), i: usize, role: &str, buffer: &mut [u8]) -> Option<usize>
    ensures { IfSome result (λ n. IsPrefixLen n buffer.new) }
{
    let mut path = io::buffer();
    match rt.arg(i, &mut path) {
        Ok(n) => whole_or_line(rt, role, &path[..n], buffer),
        Err(_) => {
            out!("error: the name of the {role} has more than 4096 bytes\n");
            None
        }
    }
}
