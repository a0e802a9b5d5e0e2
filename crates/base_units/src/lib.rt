// The units of the product: what must not be mixed up, and what answers are made of. A number of the paper for each is in specs/.
#![tactic(auto)]

ghost use Rattle.std.specs.Prelude.{◌≡◌, ◌<◌, ◌≤◌};
ghost use Rattle.rules.specs.Names.{is_character};
ghost use Rattle.rules.specs.Order.{good_string};
ghost use Rattle.rules.specs.Text.{lower};
ghost use Rattle.base_units.specs.Numbers.{number_of, number_or_none};

// The place of an order line among the used ones, from 1: what a weight is.
#[derive(Clone, Copy, PartialEq, Eq, PartialOrd, Ord)]
pub struct Rank(pub u32);

// A character of a string, a name or a charmap, by its code: `is_character` tells whether it is one. 110000 hex stands for none.
#[derive(Clone, Copy, PartialEq, Eq, PartialOrd, Ord)]
pub struct CodePoint(pub u32);

// Why an operation gives no answer, in the order of the paper's numbers from 1.
#[derive(Clone, Copy, PartialEq, Eq)]
pub enum Refusal {
    // a source that is too long, or a work area that is too short
    TooLong = 1,
    // a byte that no source may hold
    BadByte,
    // a malformed or misplaced line, a missing end
    Malformed,
    // an unknown, empty or repeated rule
    BadRule,
    // a name or an item given twice
    Twice,
    // an undeclared name, or no character where one must stand
    Unknown,
    // a number above its limit
    TooMany,
    // a weight whose name has no order line
    Unranked,
    // a table area that is too short
    ShortArea,
    // a charmap's byte given twice
    ByteTwice,
    // a table or a charmap area that is not accepted
    NotAccepted,
    // a string that is too long, or holds a number that is no character
    BadString,
    // a result longer than the room lent
    NoRoom,
    // a character or a byte that the charmap does not have
    NotMapped,
    // a heading without a weight at level 1, or headings that do not rise in it
    NotRising,
    // a level 1 that is not plain forward
    NotPlain,
    // too many parts of a run, or one that reaches outside it
    BadPart,
}

// Whether a code is a character's.
pub fn is_character(c: CodePoint) -> bool
    ensures { result ≡ is_character c.0 }
{
    let n = c.0;
    n <= 0x10FFFF && !(0xD800..=0xDFFF).contains(&n)
}

// Whether a string is not too long, and each of its numbers is a character. The loop has no other way out than its end, so that it can be made 16 bytes wide.
pub fn good_string(s: &[u32]) -> bool
    ensures { result ≡ good_string s.now }
{
    if 4096 < s.len() {
        return false;
    }
    let mut bad: u32 = 0;
    for &n in s {
        if !is_character(CodePoint(n)) {
            bad += 1;
        }
    }
    bad == 0
}

// A refusal's number on the paper.
pub fn number_of(r: Refusal) -> u32
    ensures { result ≡ number_of r }
{
    r as u32
}

// The first of two refusals in the paper's order, where there is one.
pub fn lower_of(a: Option<Refusal>, b: Option<Refusal>) -> Option<Refusal>
    ensures { number_or_none result ≡ lower (number_or_none a) (number_or_none b) }
{
    match (a, b) {
        (None, _) => b,
        (_, None) => a,
        (Some(r), Some(s)) => if number_of(r) < number_of(s) { a } else { b },
    }
}

// A place as a number of an area.
pub fn narrow(n: usize) -> u32
    requires { n < 4294967296 }
    ensures { result ≡ n }
{
    n as u32
}
