// FSF and BSF by the list of the marks' numbers, where it lies in a cartridge image: rising words, searched by halves.
#![tactic(auto)]

ghost use Rattle.std.specs.Prelude.{◌≡◌, ◌+◌, ◌*◌, ◌<◌, ◌≤◌, length, get_or};
ghost use Rattle.tape_image.specs.Image.{FieldRead, Table, most_entries};
ghost use Rattle.tape_marks.specs.Marks.{words_at, is_mark_list, before, count_th, stops_at, jump};
ghost use Rattle.tape_marks.specs.Holds.{Listed};
ghost use Rattle.tape_spacing.specs.Spacing.{ahead_of};
ghost use Rattle.tape_spacing.specs.Direction.{is_forward};

use tape_spacing::{Direction, Spaced};

// The bytes of a word.
const WORD_SIZE: usize = 4;

// Word j of the m that lie from an offset on. The image, the offset and m stay three parameters: `names_marks` judges any three, so that
// a struct of them could promise nothing of them.
#[tactic(auto, using(tape_marks::proofs::Words::word_listed))]
fn listed(image: &[u8], at: usize, m: usize, j: usize) -> usize
    requires { (j < m) × (j < most_entries) × (at + j * 4 + 4 ≤ length image.now) }
    ensures { FieldRead (get_or (words_at image.now at m) j 0) result }
{
    xdr::read_word(image, at + j * WORD_SIZE) as usize
}

// Whether m words name exactly the marks among n entries, whatever m is: no more than n words are looked at.
#[tactic(auto, using(tape_marks::proofs::Words::length_words, crate::proofs::Judging::judged_start, crate::proofs::Judging::judged))]
pub fn names_marks(image: &[u8], at: usize, m: usize, n: usize) -> bool
    requires { Table image.now n × (at + n * 4 ≤ length image.now) }
    ensures { result ≡ is_mark_list (words_at image.now at m) image.now n }
{
    let mut j: usize = 0;
    for i in 0..n {
        if tape_image::entry_len(image, i) == 0 {
            if m <= j || listed(image, at, m, j) != i {
                return false;
            }
            j += 1;
        }
    }
    j == m
}

// How many of the marks lie before a position. Each turn looks at one word and leaves half of the others: by hand, since the measure bounds the
// turns, of which `partition_point` promises nothing.
#[tactic(auto, using(tape_marks::proofs::Words::length_words, crate::proofs::Halves::halves))]
pub fn marks_before(image: &[u8], at: usize, m: usize, position: usize) -> usize
    requires { Listed image.now at m }
    ensures { (result ≡ before (words_at image.now at m) position) × (result ≤ m) }
{
    let mut low: usize = 0;
    let mut high = m;
    while low < high {
        let middle = low + (high - low) / 2;
        let mark = listed(image, at, m, middle);
        if mark < position {
            low = middle + 1;
        } else {
            high = middle;
        }
    }
    low
}

// Which of m marks is the count-th ahead of a position that some of them lie before.
#[tactic(auto, unfolding(tape_spacing::specs::Spacing::ahead_of, tape_marks::specs::Marks::count_th))]
fn count_th(direction: Direction, m: usize, passed: usize, wanted: usize) -> usize
    requires { (1 ≤ wanted) × (wanted ≤ ahead_of (is_forward direction) m passed) × (passed ≤ m) × (m ≤ most_entries) }
    ensures { (result ≡ count_th (is_forward direction) passed wanted) × (result < m) }
{
    match direction {
        Direction::Forward => passed + wanted - 1,
        Direction::Back => passed - wanted,
    }
}

// After a mark, or before it.
#[tactic(auto, unfolding(tape_marks::specs::Marks::stops_at))]
fn stops_at(direction: Direction, mark: usize) -> usize
    requires { mark < 4294967296 }
    ensures { result ≡ stops_at (is_forward direction) mark }
{
    match direction {
        Direction::Forward => mark + 1,
        Direction::Back => mark,
    }
}

// FSF forward, BSF back: over `times` marks from a position, of n entries.
#[tactic(auto, using(tape_marks::proofs::Words::length_words, tape_marks::proofs::Jump::jump_done, crate::proofs::Found::found_end, crate::proofs::Found::found_mark))]
pub fn find_files(
    image: &[u8],
    at: usize,
    m: usize,
    n: usize,
    direction: Direction,
    position: usize,
    times: u32,
) -> Spaced
    requires { Listed image.now at m }
    ensures { result ≡ jump (is_forward direction) (words_at image.now at m) n position times }
{
    if times == 0 {
        return Spaced {
            error: 0,
            position,
            residue: 0,
        };
    }
    let wanted = times as usize;
    let passed = marks_before(image, at, m, position);
    let ahead = direction.ahead(m, passed);
    if ahead < wanted {
        return Spaced {
            error: codes::AT_END,
            position: direction.end_of(n),
            residue: (wanted - ahead) as u32,
        };
    }
    let mark = listed(image, at, m, count_th(direction, m, passed, wanted));
    Spaced {
        error: 0,
        position: stops_at(direction, mark),
        residue: 0,
    }
}
