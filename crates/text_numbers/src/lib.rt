// The numbers of the text program's lines: decimal, no leading zero (a lone 0 is in the form), at most five digits.
#![tactic(auto)]

ghost use Rattle.std.specs.Prelude.{◌≡◌, true, ◌≤◌, length, drop};
ghost use Rattle.rules.specs.Bytes.{all};
ghost use Rattle.rules.specs.Number.{is_digit, digits, value, is_number, number};
ghost use Rattle.text_numbers.specs.Views.{number_in, number_next};

const MOST_DIGITS: usize = 5;

// `next` is the place behind the number.
#[derive(Clone, Copy)]
pub struct NumberAt {
    pub value: usize,
    pub next: usize,
}

// The number of leading digits.
fn count_digits(s: &[u8]) -> usize
    ensures { result ≡ digits s.now }
{
    s.iter().take_while(|b| b.is_ascii_digit()).count()
}

// The value of at most five digits.
fn value_of(s: &[u8]) -> usize
    requires s_len_bound { length s.now ≤ 5 }
    requires s_value { all is_digit s.now ≡ true }
    ensures { result ≡ value s.now }
{
    let mut v = 0;
    for b in s {
        v = 10 * v + usize::from(*b - b'0');
    }
    v
}

// Whether n leading digits are one to five, with no 0 before others.
fn is_number(n: usize, s: &[u8]) -> bool
    requires { n ≤ length s.now }
    ensures { result ≡ is_number n s.now }
{
    1 <= n && n <= MOST_DIGITS && (n == 1 || s[0] != b'0')
}

// The number that stands at a place of a line.
pub fn parse_number(line: &[u8], at: usize) -> Option<NumberAt>
    requires { at ≤ length line.now }
    ensures result_value { number_in line.now result ≡ number (drop at line.now) }
    ensures within { number_next result ≤ length line.now }
{
    let s = &line[at..];
    let n = count_digits(s);
    if !is_number(n, s) {
        return None;
    }
    let value = value_of(&s[..n]);
    Some(NumberAt {
        value,
        next: at + n,
    })
}
