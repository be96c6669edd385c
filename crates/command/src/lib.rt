// What the programs share: their arguments, the answer to `--help`, reading, and whether what they are given is an HDF5 file.
#![tactic(auto)]

ghost use Rattle.std.specs.Prelude.{◌≡◌, ◌<◌, length, take, IsUtf8, IsErrAnd, OnOk};
ghost use Rattle.std.specs.Io.KnownBytes.{Consumes, IsAtEnd};
ghost use Rattle.std.specs.IoError.{error_kind};
ghost use Rattle.io.specs.Counts.{IsPrefixLen};
ghost use Rattle.command.specs.Starts.{starts_as, signature, help_word};
ghost use Rattle.format.specs.Table.{same_words};

use std::env::FillError;
use std::fs;
use std::io::{Error, ErrorKind, Read, Result};
use std::rt::{Env, Files};

// Whether bytes begin as an HDF5 file does: with 89 48 44 46 0D 0A 1A 0A.
pub fn is_hdf5_file(data: &[u8]) -> bool
    ensures { result ≡ starts_as signature «data».now }
{
    data.starts_with(b"\x89HDF\r\n\x1A\n")
}

// Whether an argument is `--help`.
fn is_help(word: &[u8]) -> bool
    ensures { result ≡ same_words word.now help_word }
{
    word == b"--help".as_slice()
}

// Whether there is an argument of this number, from 1.
pub fn has_argument(rt: &impl Env, number: usize) -> bool {
    !matches!(rt.arg(number, &mut []), Err(FillError::NotPresent))
}

// Where the first argument is `--help`, writes the usage to standard output and answers true.
pub fn helped(rt: &impl Env, usage: &[u8]) -> bool {
    let mut word = io::buffer();
    let asked = matches!(rt.arg(1, &mut word), Ok(n) if is_help(&word[..n]));
    if asked {
        io::write_all(1, usage);
    }
    asked
}

// Opens the file of a name for reading. One that is no UTF-8 is refused.
pub fn open_file<R: Files>(rt: &R, name: &[u8]) -> Result<R::File>
    ensures { ¬ IsUtf8 name.now →
        IsErrAnd result (λ e. error_kind e ≡ ErrorKind.InvalidFilename) }
{
    match str::from_utf8(name) {
        Ok(path) => fs::open(rt, path),
        Err(_) => Err(Error::from(ErrorKind::InvalidFilename)),
    }
}

// Reads until the buffer is full or the reader ends: how many bytes it put at the start of the buffer, and the error of a read that failed.
pub fn fill<R: Read>(reader: &mut R, buffer: &mut [u8]) -> (usize, Result<()>)
    ensures within { IsPrefixLen result.0 buffer.new }
    ensures bytes { Consumes (R.remaining reader.old) (R.remaining reader.new)
        (take result.0 buffer.new) }
    ensures whole { OnOk result.1 (result.0 < length buffer.new → IsAtEnd (R.remaining reader.new)) }
{
    let mut done = 0;
    // A `while`, since each read says how many bytes it gave.
    while done < buffer.len() {
        match reader.read(&mut buffer[done..]) {
            Ok(0) => return (done, Ok(())),
            Ok(n) => done += n,
            Err(e) => return (done, Err(e)),
        }
    }
    (done, Ok(()))
}

#[cfg(test)]
mod tests {
    use super::*;

    // Gives one byte, and then fails.
    #[derive(Drop)]
    struct Broken {
        has_failed: bool,
    }

    impl Read for Broken {
        fn read(&mut self, buf: &mut [u8]) -> Result<usize> {
            if self.has_failed || buf.is_empty() {
                return Err(Error::from(ErrorKind::Other));
            }
            self.has_failed = true;
            buf[0] = b'a';
            Ok(1)
        }
    }

    #[test]
    fn fills_from_memory(rt: HostRuntime) {
        let mut text: &[u8] = b"abcde";
        let mut first = [0u8; 2];
        let (count, outcome) = fill(&mut text, &mut first);
        assert_eq!(rt; (count, outcome.is_ok()), (2, true));
        assert_eq!(rt; first, *b"ab");
        let mut rest = [0u8; 4];
        let (count, outcome) = fill(&mut text, &mut rest);
        assert_eq!(rt; (count, outcome.is_ok()), (3, true));
        assert_eq!(rt; rest, *b"cde\0");
    }

    #[test]
    fn keeps_what_was_read_before_a_failure(rt: HostRuntime) {
        let mut buffer = [0u8; 3];
        let (count, outcome) = fill(&mut Broken { has_failed: false }, &mut buffer);
        assert_eq!(rt;
            (count, outcome.map_err(|e| e.kind())),
            (1, Err(ErrorKind::Other))
        );
        assert_eq!(rt; buffer, *b"a\0\0");
    }

    #[test]
    fn refuses_a_name_that_is_no_text(rt: HostRuntime) {
        let opened = open_file(&rt, b"\xff").map(|_| ()).map_err(|e| e.kind());
        assert_eq!(rt; opened, Err(ErrorKind::InvalidFilename));
    }
}
