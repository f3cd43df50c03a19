// What stands at a place of packed letters.
ghost use Rattle.std.specs.Prelude.{◌≡◌, ◌*◌, ◌<◌, length};
ghost use Rattle.rules.specs.Packed.{set_at, letter_of};

// The letter set at a place: the high half of a byte, or the low one.
pub fn half_at(packed: &[u8], place: usize) -> u8
    requires { place < length packed.now * 2 }
    ensures value { result ≡ set_at packed.now place }
    ensures small { result < 16 }
{
    let b = packed[place / 2];
    if place % 2 == 0 {
        return b / 16;
    }
    b % 16
}

// The letter of each set; no letter has the empty one.
const LETTERS: [u8; 16] = *b"\0ACMGRSVTWYHKDBN";

pub fn letter_of(set: usize) -> u8
    requires { set < 16 }
    ensures { result ≡ letter_of set }
{
    LETTERS[set]
}
