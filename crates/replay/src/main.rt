// replay [--show [--secrets]] [--state] [--status] [FILE]: writes what each call of a list answers, as docs/REPLAY.md says. Messages go to standard
// error. With --status it ends with its exit status, and writes that to descriptor 3 too, if one is open for writing; else it ends with 0.
#![tactic(auto)]

use std::alloc::AllocError;
use std::env::{Env, FillError};
use std::fs::{File, OpenOptions};
use std::io::{ErrorKind, Write};
use std::process::ExitCode;
use std::{fs, io};
use streams::Failure;
use streams::answers::Form;

// The bytes that an argument may have.
const WORD: usize = 4_096;

// How the program ends, by its exit statuses.
#[derive(Clone, Copy, PartialEq)]
enum Exit {
    AllRead = 0,
    // a line can't be read
    BadLine = 1,
    // something failed
    Failed = 2,
    // nobody reads the answers any more, which a shell calls the signal of a closed pipe
    Unheard = 141,
}

// Why there are no answers, or not all of them.
#[derive(Debug, Drop)]
enum Error {
    // the command line asks for nothing that there is
    Usage,
    // the file's name is not UTF-8
    Name,
    // the file can't be opened
    File(io::Error),
    List(Failure),
}

impl From<Failure> for Error {
    fn from(failure: Failure) -> Error {
        Error::List(failure)
    }
}

// What the command line asks for. The name of a file is as it stands there, and need not be UTF-8.
#[derive(Clone, Copy)]
struct Options<'a> {
    form: Form,
    file: Option<&'a [u8]>,
}

impl<'a> Options<'a> {
    fn read(words: &'a [Vec<u8>]) -> Result<Options<'a>, Error> {
        let mut options = Options {
            form: Form {
                shown: false,
                secrets: false,
                with_state: false,
            },
            file: None,
        };
        for word in words {
            match word.as_slice() {
                b"--state" => options.form.with_state = true,
                b"--show" => options.form.shown = true,
                b"--secrets" => options.form.secrets = true,
                b"--status" => {}
                [b'-', b'-', ..] => return Err(Error::Usage),
                file => {
                    if options.file.replace(file).is_some() {
                        return Err(Error::Usage);
                    }
                }
            }
        }
        // the plain form withholds nothing
        if options.form.secrets && !options.form.shown {
            return Err(Error::Usage);
        }
        Ok(options)
    }

    // The file, where the list is not read from standard input.
    fn named(&self) -> Option<&'a [u8]> {
        self.file.filter(|name| *name != b"-".as_slice())
    }
}

// The words behind the program's name. Of one that is too long nothing is taken. They are taken by their places, since those of `env::args` are UTF-8,
// which a file's name need not be.
fn words(rt: &HostRuntime) -> Result<Vec<Vec<u8>>, AllocError> {
    let mut words = Vec::new(rt.alloc());
    let mut word = [0u8; WORD];
    for i in 1..usize::MAX {
        let n = match rt.arg(i, &mut word) {
            Ok(n) => n,
            Err(FillError::TooLong) => 0,
            Err(FillError::NotPresent) => break,
        };
        words.push(word[..n].to_vec(rt.alloc())?)?;
    }
    Ok(words)
}

// Answers the list, and how many of its lines could not be read.
fn answer(rt: &HostRuntime, options: Options<'_>) -> Result<u64, Error> {
    let Some(name) = options.named() else {
        return Ok(lists::replay(rt.alloc(), rt.stdin(), rt.stdout(), options.form)?);
    };
    let Ok(path) = std::str::from_utf8(name) else {
        return Err(Error::Name);
    };
    let file = File::open(rt, path).map_err(Error::File)?;
    Ok(lists::replay(rt.alloc(), file, rt.stdout(), options.form)?)
}

// Writes a message to standard error; a name in it need not be UTF-8. Nothing can be said of a write there that fails.
fn complain(rt: &HostRuntime, about: &[u8], what: &str) {
    let mut stderr = rt.stderr();
    let _ = stderr.write_all(b"replay: ");
    let _ = stderr.write_all(about);
    let _ = stderr.write_all(what.as_bytes());
    let _ = stderr.write_all(b"\n");
}

// The text of an error of the system, without the number that std puts behind it, in brackets.
fn without_number(text: &str) -> &str {
    match text.split_once(" (") {
        Some((said, _)) => said,
        None => text,
    }
}

// The same of an error of the system.
fn complain_of(rt: &HostRuntime, name: &[u8], error: &io::Error) {
    match format!(in rt.alloc(); ": {error}") {
        Ok(text) => complain(rt, name, without_number(text.as_str())),
        Err(_) => complain(rt, name, ": can't be opened"),
    }
}

// The status, of a list that comes from an input of this name. Why it failed is said.
fn status(rt: &HostRuntime, name: &[u8], answered: Result<u64, Error>) -> Exit {
    match answered {
        Ok(0) => return Exit::AllRead,
        Ok(_) => return Exit::BadLine,
        Err(Error::Usage) => {
            complain(
                rt,
                b"usage: replay [--show [--secrets]] [--state] [FILE]",
                "",
            )
        }
        Err(Error::Name) => complain(rt, name, ": not UTF-8"),
        Err(Error::File(error)) => complain_of(rt, name, &error),
        Err(Error::List(Failure::Input)) => complain(rt, name, ": can't be read"),
        Err(Error::List(Failure::OutOfMemory)) => complain(rt, b"out of memory", ""),
        Err(Error::List(Failure::Output(error))) => {
            if error.kind() == ErrorKind::BrokenPipe {
                return Exit::Unheard;
            }
            complain(rt, b"standard output", ": can't be written");
        }
    }
    Exit::Failed
}

fn run(rt: &HostRuntime, words: &[Vec<u8>]) -> Exit {
    match Options::read(words) {
        Ok(options) => {
            let name = options.named().unwrap_or(b"standard input");
            status(rt, name, answer(rt, options))
        }
        Err(error) => status(rt, b"", Err(error)),
    }
}

// Whether descriptor 3 is open for writing. What the system says of it has in its second line the octal flags, whose last digit says so.
fn is_heard(rt: &HostRuntime) -> bool {
    let Ok(said) = fs::read_to_string(rt, "/proc/self/fdinfo/3") else {
        return false;
    };
    let flags = said.lines().nth(1);
    let digit = flags.and_then(|flags| flags.as_bytes().last());
    digit.is_some_and(|digit| digit % 4 != 0)
}

// Writes the status as a digit to descriptor 3, if one is open for writing.
fn tell(rt: &HostRuntime, status: Exit) {
    if !is_heard(rt) {
        return;
    }
    let mut how = OpenOptions::new();
    how.read(true).append(true);
    if let Ok(mut file) = how.open(rt, "/dev/fd/3") {
        let _ = file.write_all(&[b'0'.wrapping_add(status as u8)]);
    }
}

fn main(rt: HostRuntime) -> ExitCode {
    let Ok(words) = words(&rt) else {
        complain(&rt, b"out of memory", "");
        return ExitCode::from(Exit::Failed as u8);
    };
    let status = run(&rt, &words);
    if status == Exit::Unheard {
        return ExitCode::from(status as u8);
    }
    let with_status = |word: &Vec<u8>| word.as_slice() == b"--status".as_slice();
    if !words.iter().any(with_status) {
        return ExitCode::SUCCESS;
    }
    tell(&rt, status);
    ExitCode::from(status as u8)
}
