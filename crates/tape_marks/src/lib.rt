// Marks by their numbers: the list of them, and where FSF and BSF come to by it, as definitions. `tape_finding` searches the list where it lies.
#![tactic(auto)]

ghost use Rattle.tape_marks.specs.Holds.{MarksAtAGlance};
ghost use Rattle.tape_marks.specs.Cases.{MarkCases};

// No work: its contract is that FSF and BSF by the list answer as they do by walking, and what holds of the list.
pub fn marks_at_a_glance()
    ensures { MarksAtAGlance }
{}

// No work: its contract is a list of worked cases, computed.
pub fn mark_cases()
    ensures { MarkCases }
{}
