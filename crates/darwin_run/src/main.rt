//! `darwin_run`: the commands over real files, standard input, standard output and standard error.
#![tactic(auto)]

use cfg_io::{FileShelf, OutSink};
use command_live::{Free, run_program};
use std::env;
use std::process::ExitCode;

fn main(rt: HostRuntime) -> ExitCode {
    let alloc = rt.alloc();
    run_program(
        rt,
        alloc,
        env::args(&rt),
        &mut FileShelf::new(&rt, alloc),
        rt.stdin(),
        &mut OutSink::new(&rt),
        &mut OutSink::new(rt.stderr()),
        &Free,
    )
}
