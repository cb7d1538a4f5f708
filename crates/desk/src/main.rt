//! The settlement desk as a program: what its words ask for, printed.
//!
//! It stands at the edge: what is answered comes from the crates below, whose contracts say what it is. `answers` has the answer
//! of each subcommand, `findings` what `desk check` finds in a script, `folders` reads and writes the folders of `desk drop`.
//! `over_file` does a job over the file of a desk, which `store` opens and closes, and of which `teller` tells people, as `streams`
//! does of standard input and output; `obstacle` looks why a file is not opened. `status` says how a run ends, and `run` joins them.
//! Begin with `run.rt`.
#![tactic(auto)]

mod answers;
mod findings;
mod folders;
mod obstacle;
mod over_file;
mod run;
mod status;
mod store;
mod streams;
mod teller;

use crate::streams::{Input, Output};
use std::env;
use std::process::ExitCode;

/// What is told on standard error where no words were given, and a script is to be typed in.
const WAITING: &str =
    "desk: waiting for a script on standard input; Control-D on a line of its own ends it (desk --help)";

fn main(rt: HostRuntime) -> ExitCode {
    let alloc = rt.alloc();
    let mut reader = Input::new(&rt);
    let mut writer = Output::new(&rt);
    let words = env::args(&rt).and_then(|words| Ok(words.collect::<Vec<String>>(alloc)?));
    ExitCode::from(match words {
        Ok(words) => {
            if words.len() <= 1 && reader.is_terminal() {
                let _ = eprintln!(rt; "{WAITING}");
            }
            run::run(&rt, words.as_slice(), &mut reader, &mut writer)
        }
        Err(error) => run::tell_no_words(&error, &mut writer),
    })
}
