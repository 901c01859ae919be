//! What the program is given from outside: its words, and the files at paths.
ghost use Rattle.std.specs.Prelude.{◌≡◌, ℕ, Err, List, ⊤, IfErr, IfOk, map, string_bytes};

use ac_base::{Feed, FromRead};
use std::io::ErrorKind;
use std::rt::{Env, Files};
use std::{env, fs};

/// Why the words can't be had.
#[derive(Clone, Copy, Debug, PartialEq, Eq)]
pub enum Unworded {
    /// They are not UTF-8.
    NotText,
    /// A growth was refused.
    NoMemory,
}

/// What gives words, and opens files as feeds. What stands over it knows nothing of these ghosts: so it has the words that were given, a file
/// of a path only by opening that path, and a refusal of a path only where the opening failed.
pub trait Host {
    type File: Feed + Drop;

    // These are the words of the command line, with the program's own name.
    ghost gives: { Self → List (List ℕ) → Type 0 };

    // The words are no text.
    ghost garbles: { Self → Type 0 };

    // A file was opened at a path.
    ghost opens: { Self → List ℕ → Self.File → Type 0 };

    // No file could be opened at a path, for this reason.
    ghost refuses: { Self → List ℕ → List ℕ → Type 0 };

    /// The words of the command line, the program's name first.
    fn words(&self) -> Result<Vec<String>, Unworded>
        ensures given { IfOk result (λ words. gives self.now (map string_bytes words.items)) }
        ensures no_text { result ≡ Err Unworded.NotText → garbles self.now };

    /// Opens the file at a path, or says why it can't be opened.
    fn open(&self, path: &str) -> Result<Self::File, &'static str>
        ensures file { IfOk result (opens self.now path.now) }
        ensures fault { IfErr result (λ reason. refuses self.now path.now reason.now) };
}

// The system's reason for an error, in words.
fn reason_of(kind: ErrorKind) -> &'static str {
    match kind {
        ErrorKind::NotFound => "there is no such file",
        ErrorKind::PermissionDenied => "permission denied",
        ErrorKind::NotADirectory => "a part of the path is no folder",
        ErrorKind::OutOfMemory => "out of memory",
        _ => "the system can't open it",
    }
}

impl<R: Env + Files + AllocGlobal> Host for R {
    type File = FromRead<R::File>;

    // The system says nothing of its words and its files.
    ghost gives = { λ _ _. ⊤ };

    ghost garbles = { λ _. ⊤ };

    ghost opens = { λ _ _ _. ⊤ };

    ghost refuses = { λ _ _ _. ⊤ };

    fn words(&self) -> Result<Vec<String>, Unworded> {
        match env::args(self) {
            Ok(words) => match words.collect(self.alloc()) {
                Ok(words) => Ok(words),
                Err(_) => Err(Unworded::NoMemory),
            },
            Err(error) if error.kind() == ErrorKind::OutOfMemory => Err(Unworded::NoMemory),
            Err(_) => Err(Unworded::NotText),
        }
    }

    fn open(&self, path: &str) -> Result<FromRead<R::File>, &'static str> {
        match fs::open(self, path) {
            Ok(file) => Ok(FromRead::new(file)),
            Err(error) => Err(reason_of(error.kind())),
        }
    }
}
