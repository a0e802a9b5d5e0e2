// The operands of an order line: what stands between `;` and `;`, read one by one from a spot on with nothing kept.
#![tactic(auto)]

ghost use Rattle.std.specs.Prelude.{◌≡◌, ◌≤◌, length};
ghost use Rattle.rules.specs.Lines.{in_plain};
ghost use Rattle.locale_weights.specs.Weights.{TailIs, WeightIs};

use text_lines::{IN_NAME, IN_PLAIN, Source, Spot};
use text_operands::{Operand, next_operand};
use text_tokens::{SEMI, Tok, end_of_name, named, plain_at};

// The next operand: whether a `;` follows it, and the spot after that. One: the spot where its one token begins, and the token. Bad: the
// operands still to come are malformed, whatever their names stand for.
#[derive(Clone, Copy)]
pub enum Weight {
    Empty(bool, Spot),
    One(Spot, Tok, bool, Spot),
    Bad,
}

// What follows the token of an operand: a `;`, with the spot after it; nothing; or what makes the operands malformed.
#[derive(Clone, Copy)]
pub enum Tail {
    More(Spot),
    Last,
    Bad,
}

// What follows a token, glued: one that is no separator.
fn after_token(src: Source, p: Spot, glued: bool) -> Tail
    requires { (p.at ≤ length src.bytes.now) × (p.mode ≡ in_plain) }
    ensures { TailIs src.entry.signs src.entry.bytes.now glued p result }
{
    match next_operand(src, p, glued) {
        Operand::End => Tail::Last,
        Operand::Broken => Tail::Bad,
        Operand::Token(_, t) => {
            if t.kind == SEMI {
                Tail::More(t.next)
            } else {
                Tail::Bad // a second token
            }
        }
    }
}

// The operand that begins at a spot, up to the next `;` or the end. Most are a name with a `;` or the line's LF right behind it: those are told
// by one byte before and one behind.
pub fn next_weight(src: Source, p: Spot) -> Weight
    requires { (p.at ≤ length src.bytes.now) × (p.mode ≡ in_plain) }
    ensures { WeightIs src.entry.signs src.entry.bytes.now p result }
{
    let at = p.at;
    if plain_at(src, at) == 60 {
        let q = Spot {
            at: at + 1,
            mode: IN_NAME,
            fresh: false,
        };
        let Some((f, r)) = end_of_name(src, q) else {
            return Weight::Bad;
        };
        let t = named(f, q, r);
        let e = r.at;
        if e < src.bytes.len() {
            if src.bytes[e] == 10 {
                return Weight::One(p, t, false, r);
            }
            if plain_at(src, e) == 59 {
                return Weight::One(
                    p,
                    t,
                    true,
                    Spot {
                        at: e + 1,
                        mode: IN_PLAIN,
                        fresh: false,
                    },
                );
            }
        }
    }
    any_weight(src, p)
}

// The same by the next operand and what follows it.
fn any_weight(src: Source, p: Spot) -> Weight
    requires { (p.at ≤ length src.bytes.now) × (p.mode ≡ in_plain) }
    ensures { WeightIs src.entry.signs src.entry.bytes.now p result }
{
    match next_operand(src, p, false) {
        Operand::End => return Weight::Empty(false, p),
        Operand::Broken => return Weight::Bad,
        Operand::Token(q, t) => {
            let e = t.next;
            if t.kind == SEMI {
                return Weight::Empty(true, e);
            }
            match after_token(src, e, t.kind >= 3) {
                Tail::Last => return Weight::One(q, t, false, e),
                Tail::Bad => return Weight::Bad,
                Tail::More(d) => return Weight::One(q, t, true, d),
            }
        }
    }
}
