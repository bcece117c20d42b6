// Cases of whole sessions, computed: the examples of paper 01 and six more lists, and the login that they begin from. They keep the definitions of requests and moves to the papers; what holds of
// moves, and the cases that try each wrong definition of one, are in `rules_moves`.
#![tactic(auto)]

ghost use Rattle.rules_cases.specs.Examples.{ExamplesHold};
ghost use Rattle.rules_cases.specs.EndlessCases.{EndlessCasesHold};
ghost use Rattle.rules_cases.specs.EnvironmentCases.{EnvironmentCasesHold};
ghost use Rattle.rules_cases.specs.FirstSizeCases.{FirstSizeCasesHold};
ghost use Rattle.rules_cases.specs.LoginCases.{LoginCasesHold};
ghost use Rattle.rules_cases.specs.KnownSession.{KnownSessionHolds};
ghost use Rattle.rules_cases.specs.ChangerCases.{ChangerCasesHold};
ghost use Rattle.rules_cases.specs.RmtCases.{RmtCasesHold};

// No work: its contract is the examples of paper 01, cases a to j in one statement.
pub fn examples_hold()
    ensures { ExamplesHold }
{}

// No work: its contract is a list of cases in one statement: windows with no end.
pub fn endless_cases_hold()
    ensures { EndlessCasesHold }
{}

// No work: its contract is a list of cases of the first record size, and of one that is 0, in one statement.
pub fn first_size_cases_hold()
    ensures { FirstSizeCasesHold }
{}

// No work: its contract is a list of cases of the environment, in one statement.
pub fn environment_cases_hold()
    ensures { EnvironmentCasesHold }
{}

// No work: its contract is a list of cases of logins, by MD5 and by text, which is withdrawn, in one statement.
pub fn login_cases_hold()
    ensures { LoginCasesHold }
{}

// No work: its contract is that the calls of a login by MD5 give the session from which the cases begin.
pub fn known_session_holds()
    ensures { KnownSessionHolds }
{}

// No work: its contract is a list of cases of the changer, in one statement.
pub fn changer_cases_hold()
    ensures { ChangerCasesHold }
{}

// No work: its contract is a list of cases of commands of the remote tape protocol, in one statement.
pub fn rmt_cases_hold()
    ensures { RmtCasesHold }
{}
