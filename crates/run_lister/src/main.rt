// Lists the cartridge image on standard input.
#![tactic(auto)]

use std::io;
use std::io::Write;

fn main(rt: HostRuntime) -> io::Result<()> {
    let mut out = rt.stdout();
    run_listing::list_from(&mut out, &mut rt.stdin())?;
    out.flush()
}
