// Who becomes authorized, over lists of all calls (paper 02, No. 2): by which requests, and by which challenge.
#![tactic(auto)]

ghost use Rattle.rules_login.specs.Along.{LoginAlong};

// No work: its contract is that only a login that is right lets a client in, and that the newest challenge is the one judged, whatever came between.
pub fn login_along()
    ensures { LoginAlong }
{}
