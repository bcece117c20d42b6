// The files of a cartridge and what thinning it out comes to, as definitions: `tape_thinning` has the code.
#![tactic(auto)]

ghost use Rattle.tape_files.specs.Holds.{ThinningHolds};
ghost use Rattle.tape_files.specs.Cases.{ThinCases};

// No work: its contract is what holds of files and of thinning.
pub fn thinning_holds()
    ensures { ThinningHolds }
{}

// No work: its contract is what small cartridges come to, computed.
pub fn thin_cases()
    ensures { ThinCases }
{}
