// The files that a test program's arguments name.
#![tactic(auto)]

use std::env;
use std::fs::{self, File, Files};
use std::io::{self, Print};

// Prints the name of a file on a line, and opens it for reading; where that fails it prints so. Without an `ensures`, since a contract
// cannot say what is opened or written (docs/DECISIONS.md, 47).
pub fn open<R: Files + Print>(rt: &R, name: &str) -> io::Result<Option<R::File>> {
    println!(rt; "{name}")?;
    match fs::open(rt, name) {
        Ok(file) => Ok(Some(file)),
        Err(_) => {
            println!(rt; "not opened")?;
            Ok(None)
        }
    }
}

// Hands each of the files over, up to the first one with which that fails. Without an `ensures`, as above.
pub fn each<F: FnMut(File) -> io::Result<()>>(rt: &HostRuntime, read: F) -> io::Result<()>
    requires { F.IsAlwaysCallable read }
{
    let mut read = read;
    for name in env::args(rt)?.take(1000).skip(1) {
        if let Some(file) = open(rt, name.as_str())? {
            read(file)?;
        }
    }
    Ok(())
}
