//! The program: it hands the words after its name to the top call, over the real host.
#![tactic(auto)]

use rgb_app::{WordsFault, run_words};
use rgb_base::NoPace;
use rgb_host::RealHost;
use std::env::Env;
use std::process::ExitCode;
use std::{env, io};

// The words after the program's name.
fn words(rt: &(impl Env + AllocGlobal)) -> io::Result<Vec<String>> {
    let mut words = Vec::new(rt.alloc());
    for word in env::args(rt)?.skip(1) {
        words.push(word)?;
    }
    Ok(words)
}

fn main(rt: HostRuntime) -> ExitCode {
    let alloc = rt.alloc();
    let words = words(&rt).map_err(WordsFault::from);
    ExitCode::from(run_words(&rt, alloc, words, &mut RealHost::new(rt), &NoPace))
}
