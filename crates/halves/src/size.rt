// How many letters a reference has, by their form.
ghost use Rattle.std.specs.Prelude.{◌≡◌, length};
ghost use Rattle.rules.specs.Packed.{letters_by};

use rules::Form;

// How many letters there are: none where packed bytes aren't as many as half of them, rounded up.
pub fn size_of(letters: &[u8], form: Form) -> usize
    ensures { result ≡ length (letters_by form letters.now) }
{
    match form {
        Form::Bytes => letters.len(),
        Form::Packed(size) => {
            if letters.len() == size / 2 + size % 2 {
                return size;
            }
            0
        }
    }
}
