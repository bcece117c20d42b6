// Lists each image file that an argument names, with its name on a line before it.
#![tactic(auto)]

use std::io::Write;
use std::rt::Files;
use std::{env, fs, io};

// A file that cannot be opened is told on standard error, and the next one follows.
fn list_file(rt: &(impl Files + Eprint), out: &mut impl Write, path: &str) -> io::Result<()> {
    writeln!(out, "{path}")?;
    match fs::open(rt, path) {
        Ok(mut file) => run_listing::list_from(out, &mut file),
        Err(e) => {
            out.flush()?;
            eprintln!(rt; "{path}: {e}")
        }
    }
}

fn main(rt: HostRuntime) -> io::Result<()> {
    let mut out = rt.stdout();
    for path in env::args(&rt)?.skip(1) {
        list_file(&rt, &mut out, path.as_str())?;
    }
    out.flush()
}
