// The slot list over lists of all calls (paper 02, No. 7): each cartridge is in one place, none is lost, and while the tape is open the drive keeps its own.
#![tactic(auto)]

ghost use Rattle.rules_changer.specs.Along.{SlotsAlong};

// No work: its contract is where the cartridges are after any calls.
pub fn slots_along()
    ensures { SlotsAlong }
{}
