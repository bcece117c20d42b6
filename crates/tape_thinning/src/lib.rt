// Thinning out a cartridge: the named files of one image go to another. `tape_files` has the definitions.
#![tactic(auto)]

ghost use Rattle.std.specs.Prelude.{◌≡◌, ◌+◌, ◌≤◌, ◌<◌, length};
ghost use Rattle.tape_image.specs.Image.{most_entries, entry_bytes};
ghost use Rattle.tape_image.specs.Sound.{Sound};
ghost use Rattle.tape_writing.specs.Writing.{written};
ghost use Rattle.tape_files.specs.Thinning.{emptied, laid, are_named, named_entries};
ghost use Rattle.tape_files.proofs.Laid.{Ready};
ghost use Rattle.tape_thinning.specs.Walk.{next_at, after, Surveyed, room_of, Copyable, ThinGave};

use codes::NdmpError;

// How many files a cartridge has, and the entries and bytes of the named ones.
#[derive(Clone, Copy)]
struct Survey {
    files: usize,
    entries: usize,
    bytes: usize,
}

// Where a walk over the source's entries stands: in which file, and at which of the numbers.
#[derive(Clone, Copy)]
struct Walk {
    file: usize,
    next: usize,
}

impl Walk {
    // Whether the file is the next that is named.
    #[tactic(auto, using(crate::proofs::Laws::numbers_by_index))]
    fn is_named(self, numbers: &[u32]) -> bool
        ensures { result ≡ next_at numbers.now self.next self.file }
    {
        self.next < numbers.len() && numbers[self.next] as usize == self.file
    }

    // Past an entry of some length: a mark ends the file, and its number is used up where it was named.
    #[tactic(auto, unfolding(xdr::specs::Choose::choose))]
    fn after(self, named: bool, len: usize) -> Walk
        requires { (self.file ≤ most_entries) × (self.next ≤ most_entries) }
        ensures { result ≡ after self named len }
    {
        if len != 0 {
            return self;
        }
        Walk {
            file: self.file + 1,
            next: self.next + usize::from(named),
        }
    }
}

// Whether numbers rise and each names one of the files.
#[tactic(auto, using(crate::proofs::Laws::numbers_in_turn))]
fn are_named(numbers: &[u32], files: usize) -> bool
    ensures { result ≡ are_named 0 files numbers.now }
{
    let mut from: usize = 0;
    for &n in numbers {
        let n = n as usize;
        if n < from || files <= n {
            return false;
        }
        from = n + 1;
    }
    true
}

// One walk over the source's table: its files, and what the named ones take.
fn measure(source: &[u8], numbers: &[u32]) -> Survey
    requires { Sound source.now }
    ensures { Surveyed source.now numbers.now result }
{
    let mut walk = Walk { file: 0, next: 0 };
    let mut begun = false;
    let mut entries: usize = 0;
    let mut bytes: usize = 0;
    for i in 0..tape_image::count(source) {
        let len = tape_image::entry_len(source, i);
        let named = walk.is_named(numbers);
        walk = walk.after(named, len);
        begun = len != 0;
        if named {
            entries += 1;
            bytes += len;
        }
    }
    Survey {
        files: walk.file + usize::from(begun),
        entries,
        bytes,
    }
}

// Takes all entries off an image.
#[tactic(auto, unfolding(tape_files::specs::Thinning::emptied))]
fn empty(image: &mut [u8])
    requires { Sound image.old }
    ensures { image.new ≡ emptied image.old }
{
    xdr::write_words(image, tape_image::HEADER_SIZE - 8, &[0, 0]);
}

// Writes an entry of the source at a position.
fn copy_entry(source: &[u8], i: usize, image: &mut [u8], position: usize)
    requires { Copyable source.now i image.old position }
    ensures { image.new ≡ written image.old position (entry_bytes source.now i) }
{
    let len = tape_image::entry_len(source, i);
    let start = tape_image::body_at(source) + tape_image::entry_start(source, i);
    tape_writing::write_filled(image, position, &source[start..start + len], len);
}

// Whether an image without entries would have room.
#[tactic(auto, unfolding(crate::specs::Walk::room_of, xdr::specs::Choose::choose))]
fn has_room(image: &[u8], entries: usize, bytes: usize) -> bool
    requires { Sound image.now }
    ensures { result ≡ room_of image.now entries bytes }
{
    entries <= tape_image::capacity(image) && bytes <= image.len() - tape_image::body_at(image)
}

// Writes the entries of the named files to an empty image, one after the other.
fn copy_files(source: &[u8], numbers: &[u32], image: &mut [u8])
    requires { Sound source.now × Ready image.old 0 (named_entries source.now numbers.now) }
    ensures { image.new ≡ laid image.old 0 (named_entries source.now numbers.now) }
{
    let mut walk = Walk { file: 0, next: 0 };
    let mut at: usize = 0;
    for i in 0..tape_image::count(source) {
        let named = walk.is_named(numbers);
        walk = walk.after(named, tape_image::entry_len(source, i));
        if named {
            copy_entry(source, i, image, at);
            at += 1;
        }
    }
}

// Writes the named files of a source to a second image, which stays as it was where that is refused: 15 where an image is unsound, 9 for the numbers
// and 13 where there is no room.
#[tactic(auto, using(tape_image::proofs::Laws::sound_facts, tape_files::proofs::Holds::emptied_ready, tape_files::proofs::Holds::named_short), unfolding(tape_files::specs::Thinning::thin_code, tape_files::specs::Thinning::thin_image, tape_files::specs::Thinning::have_room, crate::specs::Walk::room_of, xdr::specs::Choose::choose))]
pub fn thin(source: &[u8], numbers: &[u32], second: &mut [u8]) -> Result<(), NdmpError>
    ensures { ThinGave source.now numbers.now second.old result second.new }
{
    if !tape_sound::sound(source) || !tape_sound::sound(second) {
        return Err(NdmpError::BadFile);
    }
    let taken = measure(source, numbers);
    if !are_named(numbers, taken.files) {
        return Err(NdmpError::IllegalArguments);
    }
    if !has_room(second, taken.entries, taken.bytes) {
        return Err(NdmpError::AtEnd);
    }
    empty(second);
    copy_files(source, numbers, second);
    Ok(())
}
