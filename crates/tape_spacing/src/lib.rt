// Spacing over the entries of a cartridge: FSF, BSF, FSR and BSR, what each comes to. `tape_walking` walks over them.
#![tactic(auto)]

ghost use Rattle.std.specs.Prelude.{◌≡◌, ◌≤◌};
ghost use Rattle.codes.specs.Errors.{number_of};
ghost use Rattle.tape_spacing.specs.Spacing.{ended, goes_forward, ahead_of, end_of, passes, position_after};
ghost use Rattle.tape_spacing.specs.Direction.{is_forward};
ghost use Rattle.tape_image.specs.Image.{most_entries};
ghost use Rattle.tape_spacing.specs.Examples.{SpacingExamplesHold};
ghost use Rattle.tape_spacing.specs.Alike.{SpacingAlike};

use codes::NdmpError;

// Where a walk over the table ended: the error, the position and the residue. The error is a number, as C's struct has it.
#[repr(C)]
#[derive(Clone, Copy)]
pub struct Spaced {
    pub error: u32,
    pub position: usize,
    pub residue: u32,
}

impl Spaced {
    // What C gets for a refusal at a position.
    pub fn refused(position: usize, error: NdmpError) -> Spaced
        ensures { result ≡ ended (number_of error) position 0 }
    {
        Spaced {
            error: error.number(),
            position,
            residue: 0,
        }
    }
}

// The way that a walk goes over the entries.
#[derive(Clone, Copy, Debug, PartialEq, Eq)]
pub enum Direction {
    Forward,
    Back,
}

#[tactic(auto, unfolding(crate::specs::Spacing::ahead_of, crate::specs::Spacing::passes, crate::specs::Spacing::position_after))]
impl Direction {
    // Of FSF 0, BSF 1, FSR 2 and BSR 3, the even ones go forward. The operation is the number that a request or C gives (`cartridge_mtio`).
    pub fn of(op: u32) -> Direction
        ensures { is_forward result ≡ goes_forward op }
    {
        if op % 2 == 0 {
            Direction::Forward
        } else {
            Direction::Back
        }
    }

    // How many of n entries, or of n marks, lie ahead where so many lie before.
    pub fn ahead(self, n: usize, before: usize) -> usize
        requires { before ≤ n }
        ensures { result ≡ ahead_of (is_forward self) n before }
    {
        match self {
            Direction::Forward => n - before,
            Direction::Back => before,
        }
    }

    // The end of n entries that it goes to.
    pub fn end_of(self, n: usize) -> usize
        ensures { result ≡ end_of (is_forward self) n }
    {
        match self {
            Direction::Forward => n,
            Direction::Back => 0,
        }
    }

    // The entry that a step from a position passes.
    pub fn entry_passed(self, at: usize) -> usize
        ensures { result ≡ passes (is_forward self) at }
    {
        match self {
            Direction::Forward => at,
            Direction::Back if at == 0 => 0,
            Direction::Back => at - 1,
        }
    }

    // The position after a step, in a table of no more entries than an image may have.
    pub fn position_after(self, at: usize) -> usize
        requires { at ≤ most_entries }
        ensures { result ≡ position_after (is_forward self) at }
    {
        match self {
            Direction::Forward => at + 1,
            Direction::Back if at == 0 => 0,
            Direction::Back => at - 1,
        }
    }
}

// No work: its contract is the list of worked examples, so that the crate is proved only with them.
pub fn examples_hold()
    ensures { SpacingExamplesHold }
{}

// No work: its contract is that two sound images of one n answer alike if the entries passed agree in kind.
pub fn spacing_alike()
    ensures { SpacingAlike }
{}
