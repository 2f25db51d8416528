//! The program: TeX on the first line that its words give, over the files of the current folder.
#![tactic(auto)]

ghost use Rattle.std.specs.Prelude.{◌≡◌};
ghost use Rattle.etex_cli.specs.Program.{behind_name, status_of, status_without_words};

#[cfg(test)]
mod tests;
mod top;

use std::env::Env;
use std::io;
use std::process::ExitCode;
pub use stomach::Exit;
pub use top::etex_main;
use world::DirWorld;

fn main(rt: HostRuntime) -> ExitCode {
    let alloc = rt.alloc();
    let words = match words(&rt) {
        Ok(words) => words,
        Err(e) => {
            let no_memory = e.kind() == io::ErrorKind::OutOfMemory;
            return ExitCode::from(status_without_words(no_memory));
        }
    };
    let mut world = DirWorld::new(rt, alloc);
    let exit = etex_main(alloc, behind_name(words.as_slice()), &mut world);
    ExitCode::from(status_of(exit))
}

/// All words of the command line.
fn words(rt: &(impl Env + AllocGlobal)) -> io::Result<Vec<String>> {
    let mut words = Vec::new(rt.alloc());
    for word in std::env::args(rt)? {
        words.push(word)?;
    }
    Ok(words)
}

/// The words behind the program's own name.
fn behind_name(words: &[String]) -> &[String]
    ensures value { result.now ≡ behind_name words.now }
{
    match words {
        [_name, words @ ..] => words,
        [] => words,
    }
}

/// The status of an exit.
fn status_of(exit: Exit) -> u8
    ensures value { result ≡ status_of exit }
{
    exit as u8
}

/// The status where the words can't be had.
fn status_without_words(no_memory: bool) -> u8
    ensures value { result ≡ status_without_words no_memory }
{
    if no_memory { 7 } else { 8 }
}
