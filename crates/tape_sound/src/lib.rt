// Whether a cartridge image is sound, of any bytes.
#![tactic(auto)]

ghost use Rattle.std.specs.Prelude.{◌≡◌, ◌+◌, ◌-◌, ◌*◌, ◌<◌, ◌≤◌};
ghost use Rattle.tape_image.specs.Image.{Table, header_ok, table_ok, is_sound, faulty};

// The first word, the sizes and the counts of the image are in range.
#[tactic(auto, unfolding(tape_image::specs::Image::header_ok, xdr::specs::Choose::all_of))]
fn header_sound(image: &[u8]) -> bool
    ensures { result ≡ header_ok image.now }
{
    if image.len() < tape_image::HEADER_SIZE {
        return false;
    }
    let capacity = tape_image::capacity(image);
    let body = tape_image::body_at(image);
    tape_image::first_word(image) == 1
        && 1 <= capacity
        && capacity <= tape_image::MOST_ENTRIES
        && body <= image.len()
        && image.len() - body <= tape_image::LARGEST_BODY
        && tape_image::count(image) <= capacity
        && tape_image::used_bytes(image) <= image.len() - body
}

// The first entries have lengths in range, starts that are the sums before them, and the sum total.
#[tactic(auto, using(tape_image::proofs::Laws::table_step, tape_image::proofs::Laws::table_end))]
fn table_sound(image: &[u8], entries: usize, total: usize) -> bool
    requires { Table image.now entries }
    ensures { result ≡ table_ok image.now total entries 0 0 }
{
    let mut sum: usize = 0;
    for i in 0..entries {
        let len = tape_image::entry_len(image, i);
        if codes::LONGEST_RECORD < len || tape_image::entry_start(image, i) != sum {
            return false;
        }
        sum += len;
    }
    sum == total
}

// The image is sound.
#[tactic(auto, using(tape_image::proofs::Laws::header_facts), unfolding(tape_image::specs::Image::is_sound))]
pub fn sound(image: &[u8]) -> bool
    ensures { result ≡ is_sound image.now }
{
    header_sound(image)
        && table_sound(
            image,
            tape_image::count(image),
            tape_image::used_bytes(image),
        )
}

// The image is unsound, or the position is above its number of entries.
#[tactic(auto, using(tape_image::proofs::Laws::sound_facts), unfolding(tape_image::specs::Image::faulty, xdr::specs::Choose::choose))]
pub fn is_faulty(image: &[u8], position: usize) -> bool
    ensures { result ≡ faulty image.now position }
{
    !sound(image) || tape_image::count(image) < position
}
