// Bytes as the programs print them.
#![tactic(auto)]

ghost use Rattle.std.specs.Prelude.{Some};
ghost use Rattle.run_writing.specs.Hex.{hex_of, HexShown};

use std::fmt;

// Bytes that are printed in hex, two digits each: `output` says so of every list.
#[derive(Clone, Copy, Debug)]
pub struct Hex<'a>(pub &'a [u8]);

impl fmt::Display for Hex<'_> {
    ghost output = { λ h. Some (hex_of h.0.now) };

    fn fmt<W: fmt::Write>(&self, f: &mut fmt::Formatter<W>) -> fmt::Result {
        for b in self.0 {
            let byte = *b;
            write!(f, "{byte:02x}")?;
        }
        Ok(())
    }
}

// No work: its contract is what bytes that are written out are shown as, computed.
pub fn hex_shown()
    ensures { HexShown }
{}
