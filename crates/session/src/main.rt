#![tactic(auto)]
// The bench language: lines in, one call a line on one table that starts empty, replies out.
mod bench;
mod error;
mod esm;
mod replies;
mod run;
mod tables;

use std::env::Env;
use std::io::{self, ErrorKind};

// The one word that the program takes; what else it might be started with is for the command `session` to tell.
fn is_echo_asked(rt: &impl Env) -> bool {
    let mut word = [0; 6];
    matches!(rt.arg(1, &mut word), Ok(6)) && word == *b"--echo"
}

// That nobody reads the replies any more is no failure.
fn main(rt: HostRuntime) -> io::Result<()> {
    let echoing = is_echo_asked(&rt);
    match run::run(rt.alloc(), rt.reader(), io::writer(&rt), echoing) {
        Err(error) if error.kind() == ErrorKind::BrokenPipe => Ok(()),
        ended => ended,
    }
}
