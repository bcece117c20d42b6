// The contract's annex (paper 02, No. 12): what went in comes out.
#![tactic(auto)]

ghost use Rattle.rules_annex.specs.Used.{UsedGrows};
ghost use Rattle.rules_annex.specs.RoundTrip.{ComesOut};
ghost use Rattle.rules_annex.specs.Example.{ExampleHolds};

// No work: its contract is that what a backup took is what a recover hands over.
pub fn comes_out()
    ensures { ComesOut }
{}

// No work: its contract is that the body bytes in use grow by the records written times their size.
pub fn used_grows()
    ensures { UsedGrows }
{}

// No work: its contract is an instance of the premises of `comes_out`, computed.
pub fn example_holds()
    ensures { ExampleHolds }
{}
