// What the pairs program prints, as bytes: numbers, and the lines made of them, each written into a lent buffer from a place on. Every
// function answers the place behind what it wrote.
#![tactic(auto)]

ghost use Rattle.std.specs.Prelude.{◌≡◌, [], ◌∷◌, ◌+◌, ◌≤◌, length};
ghost use Rattle.rules.specs.Pairs.{digits_in, decimal, sign_byte, compared_line, refused_line, file_line};
ghost use Rattle.base_units.specs.Numbers.{sign_of};
ghost use Rattle.order_compare.specs.Answers.{answer_as};
ghost use Rattle.order_keys.specs.Writing.{Puts};
ghost use Rattle.pairs_printing.specs.Printed.{Prints};

use order_compare::Answer;
use std::cmp::Ordering;

// A byte.
fn put_one(out: &mut [u8], at: usize, b: u8) -> usize
    requires { at + 1 ≤ length out.old }
    ensures { Puts out.old at (b ∷ []) out.new result }
{
    out[at] = b;
    at + 1
}

// The bytes of a text.
pub fn put_text(out: &mut [u8], at: usize, text: &[u8]) -> usize
    requires { at + length text.now ≤ length out.old }
    ensures { Puts out.old at text.now out.new result }
{
    let next = at + text.len();
    out[at..next].copy_from_slice(text);
    next
}

// The digits of a number, in at most so many places.
fn put_digits(out: &mut [u8], at: usize, n: u64, most: usize) -> usize
    requires { at + most ≤ length out.old }
    ensures { Puts out.old at (digits_in most n) out.new result }
{
    if most == 0 {
        return at;
    }
    let digit = (48 + n % 10) as u8;
    if n < 10 {
        return put_one(out, at, digit);
    }
    let next = put_digits(out, at, n / 10, most - 1);
    put_one(out, next, digit)
}

// A number.
fn put_number(out: &mut [u8], at: usize, n: u64) -> usize
    requires { at + 20 ≤ length out.old }
    ensures { Prints 20 out.old at (decimal n) out.new result }
{
    put_digits(out, at, n, 20)
}

// A blank and a number.
fn put_field(out: &mut [u8], at: usize, n: u64) -> usize
    requires { at + 21 ≤ length out.old }
    ensures { Prints 21 out.old at (32 ∷ decimal n) out.new result }
{
    let next = put_one(out, at, b' ');
    put_number(out, next, n)
}

// A sign as it is printed.
fn sign_byte(s: Ordering) -> u8
    ensures { result ≡ sign_byte (sign_of s) }
{
    match s {
        Ordering::Less => b'<',
        Ordering::Equal => b'=',
        Ordering::Greater => b'>',
    }
}

// A blank and a sign.
fn put_sign(out: &mut [u8], at: usize, s: Ordering) -> usize
    requires { at + 2 ≤ length out.old }
    ensures { Puts out.old at (32 ∷ sign_byte (sign_of s) ∷ []) out.new result }
{
    let next = put_one(out, at, b' ');
    put_one(out, next, sign_byte(s))
}

// The line of the n-th pair, whose texts compare so.
pub fn put_compared(out: &mut [u8], at: usize, n: u64, a: Answer) -> usize
    requires { at + 80 ≤ length out.old }
    ensures { Prints 80 out.old at (compared_line n (answer_as a)) out.new result }
{
    let numbered = put_number(out, at, n);
    let signed = put_sign(out, numbered, a.sign);
    let levelled = put_field(out, signed, a.level as u64);
    let counted = put_field(out, levelled, a.agreed as u64);
    put_one(out, counted, b'\n')
}

// The line of the n-th pair, of which a text is refused.
pub fn put_refused(out: &mut [u8], at: usize, n: u64, r: u32) -> usize
    requires { at + 80 ≤ length out.old }
    ensures { Prints 80 out.old at (refused_line n r) out.new result }
{
    let numbered = put_number(out, at, n);
    let worded = put_text(out, numbered, b" refused ");
    let told = put_number(out, worded, r as u64);
    put_one(out, told, b'\n')
}

// The line of a refused file: its name, the refusal's number and line.
pub fn put_file(out: &mut [u8], at: usize, file: &[u8], r: u32, line: usize) -> usize
    requires { at + (length file.now + 80) ≤ length out.old }
    ensures { Prints (length file.now + 80) out.old at (file_line file.now r line) out.new result }
{
    let named = put_text(out, at, file);
    let told = put_field(out, named, r as u64);
    let placed = put_field(out, told, line as u64);
    put_one(out, placed, b'\n')
}
