// The environment over lists of calls (paper 02, No. 3): the pairs of a start come back.
#![tactic(auto)]

ghost use Rattle.rules_variables.specs.Variables.{VariablesHold};

// No work: its contract is that 0x404 gives the pairs of the last accepted start, whatever came between that is no start and no stop.
pub fn variables_hold()
    ensures { VariablesHold }
{}
