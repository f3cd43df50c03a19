// The length of the stored form by the reference's numbers, known before its first byte is written.
#![tactic(auto)]

ghost use Rattle.std.specs.Prelude.{◌≡◌, ◌≤◌};
ghost use Rattle.storing_length.specs.Length.{form_length};

// By the reference's numbers: tags 1, 2 and 3 take 14 bytes beside the letters, tag 7 four more than tag 2.
#[tactic(auto, unfolding(crate::specs::Length::form_length))]
pub fn form_length(size: usize, count: usize, end: usize) -> usize
    requires { (size ≤ 131072) × (count ≤ 16) }
    ensures { result ≡ form_length size count end }
{
    let wide = if 16384 < size { 4 } else { 0 };
    let exceptions = if 0 < count { 3 + 3 * count } else { 0 };
    let second = if 65535 < size { 3 } else { 0 };
    let third = if 131070 < size { 3 } else { 0 };
    let ending = if 0 < end { 4 } else { 0 };
    size + 14 + wide + exceptions + second + third + ending
}
