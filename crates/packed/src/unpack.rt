// Packed letters written a byte each.
ghost use Rattle.std.specs.Prelude.{◌≡◌, ◌+◌, ◌-◌, ◌*◌, ◌/◌, ◌%◌, ◌≤◌, ◌<◌, length, drop};
ghost use Rattle.rules.specs.Bytes.{over};
ghost use Rattle.rules.specs.Altered.{part};
ghost use Rattle.rules.proofs.Over.{over_from};
ghost use Rattle.rules.specs.Packed.{letters_in, set_at, letter_of};
ghost use Rattle.packed.specs.Halves.{HoldsPairs};

// The two letters of each byte, to be loaded once and lent.
pub fn letter_pairs() -> [u16; 256]
    ensures { HoldsPairs result }
{
    PAIRS
}

// The letters of byte j: the first is below 256, the second above.
fn pair_at(packed: &[u8], j: usize, pairs: &[u16; 256]) -> u16
    requires holds_pairs { HoldsPairs pairs.now }
    requires j_in_bounds { j < length packed.now }
    ensures first { result % 256 ≡ letter_of (set_at packed.now (j * 2)) }
    ensures second { result / 256 ≡ letter_of (set_at packed.now (j * 2 + 1)) }
{
    pairs[usize::from(packed[j])]
}

// Writes the letters of the places from + done .. to, of which the first is in a high half: two at a time.
fn write_bytes(
    packed: &[u8],
    from: usize,
    done: usize,
    to: usize,
    pairs: &[u16; 256],
    out: &mut [u8],
)
    requires holds_pairs { HoldsPairs pairs.now }
    requires done_value { (from + done) % 2 ≡ 0 }
    requires done_bound { from + done ≤ to }
    requires to_in_bounds { (to ≤ length packed.now * 2) × (to - from ≤ length out.old) }
    ensures { out.new ≡ over_from done (drop done (part from to (letters_in packed.now))) out.old }
{
    let n = to - from;
    let start = (from + done) / 2;
    let both = (n - done) / 2;
    for k in 0..both {
        let i = done + k * 2;
        let p = pair_at(packed, start + k, pairs);
        out[i] = (p % 256) as u8;
        out[i + 1] = (p / 256) as u8;
    }
    let last = done + both * 2;
    if last < n {
        let p = pair_at(packed, start + both, pairs);
        out[last] = (p % 256) as u8;
    }
}

// Writes the letters from..to to the buffer's start.
pub fn unpack_part(packed: &[u8], from: usize, to: usize, pairs: &[u16; 256], out: &mut [u8])
    requires holds_pairs { HoldsPairs pairs.now }
    requires from_le_to { from ≤ to }
    requires to_in_bounds { to ≤ length packed.now * 2 }
    requires from_in_bounds { to - from ≤ length out.old }
    ensures { out.new ≡ over (part from to (letters_in packed.now)) out.old }
{
    if from % 2 == 0 {
        write_bytes(packed, from, 0, to, pairs, out);
        return;
    }
    if from < to {
        let p = pair_at(packed, from / 2, pairs);
        out[0] = (p / 256) as u8;
        write_bytes(packed, from, 1, to, pairs, out);
    }
}

// The letters of each byte, sixteen bytes a line.
const PAIRS: [u16; 256] = [
    0, 16640, 17152, 19712, 18176, 20992, 21248, 22016, 21504, 22272, 22784, 18432, 19200, 17408,
    16896, 19968, 65, 16705, 17217, 19777, 18241, 21057, 21313, 22081, 21569, 22337, 22849, 18497,
    19265, 17473, 16961, 20033, 67, 16707, 17219, 19779, 18243, 21059, 21315, 22083, 21571, 22339,
    22851, 18499, 19267, 17475, 16963, 20035, 77, 16717, 17229, 19789, 18253, 21069, 21325, 22093,
    21581, 22349, 22861, 18509, 19277, 17485, 16973, 20045, 71, 16711, 17223, 19783, 18247, 21063,
    21319, 22087, 21575, 22343, 22855, 18503, 19271, 17479, 16967, 20039, 82, 16722, 17234, 19794,
    18258, 21074, 21330, 22098, 21586, 22354, 22866, 18514, 19282, 17490, 16978, 20050, 83, 16723,
    17235, 19795, 18259, 21075, 21331, 22099, 21587, 22355, 22867, 18515, 19283, 17491, 16979,
    20051, 86, 16726, 17238, 19798, 18262, 21078, 21334, 22102, 21590, 22358, 22870, 18518, 19286,
    17494, 16982, 20054, 84, 16724, 17236, 19796, 18260, 21076, 21332, 22100, 21588, 22356, 22868,
    18516, 19284, 17492, 16980, 20052, 87, 16727, 17239, 19799, 18263, 21079, 21335, 22103, 21591,
    22359, 22871, 18519, 19287, 17495, 16983, 20055, 89, 16729, 17241, 19801, 18265, 21081, 21337,
    22105, 21593, 22361, 22873, 18521, 19289, 17497, 16985, 20057, 72, 16712, 17224, 19784, 18248,
    21064, 21320, 22088, 21576, 22344, 22856, 18504, 19272, 17480, 16968, 20040, 75, 16715, 17227,
    19787, 18251, 21067, 21323, 22091, 21579, 22347, 22859, 18507, 19275, 17483, 16971, 20043, 68,
    16708, 17220, 19780, 18244, 21060, 21316, 22084, 21572, 22340, 22852, 18500, 19268, 17476,
    16964, 20036, 66, 16706, 17218, 19778, 18242, 21058, 21314, 22082, 21570, 22338, 22850, 18498,
    19266, 17474, 16962, 20034, 78, 16718, 17230, 19790, 18254, 21070, 21326, 22094, 21582, 22350,
    22862, 18510, 19278, 17486, 16974, 20046,
];
