// A line in LC_COLLATE in a used branch, from its place on: the dispatcher over its first word or name.
#![tactic(auto)]

ghost use Rattle.locale_sheet.specs.Sheets.{StepIs};
ghost use Rattle.locale_dispatch.specs.Steps.{LineAt, WordAt};

use base_units::Refusal;
use locale_conditionals::{define_line, if_line};
use locale_declarations::{element_step, end_line, order_end_line, order_start_line, symbol_step};
use locale_moves::{reorder_after_line, reorder_end_line};
use locale_opening::{Keyword, Opening, keyword_at, malformed, open_line};
use locale_order_lines::{name_line, undefined_line};
use locale_sheet::{Line, Sheet, Step};
use text_lines::{Source, Spot};
use text_tokens::Tok;

// A line that opens with a word.
fn word_step(
    src: Source,
    work: &mut [u32],
    sh: Sheet,
    l: Line,
    q: Spot,
    t: Tok,
) -> Result<Step, Refusal>
    requires { WordAt src.signs src.bytes.now work.old sh l.at l.number l.depth q t l.end }
    ensures { StepIs src.entry.signs src.entry.bytes.now work.old sh l.at l.number l.depth work.new result }
{
    let p = t.next;
    match keyword_at(src, q) {
        Keyword::Define => define_line(src, work, sh, l, p, true),
        Keyword::Undef => define_line(src, work, sh, l, p, false),
        Keyword::Ifdef => if_line(src, work, sh, l, p, true),
        Keyword::Ifndef => if_line(src, work, sh, l, p, false),
        Keyword::Elif => Ok(Step::Branch),
        Keyword::Else => Ok(Step::Branch),
        Keyword::Endif => Ok(Step::Branch),
        Keyword::Symbol => symbol_step(src, work, sh, l, p),
        Keyword::Element => element_step(src, work, sh, l, p),
        Keyword::OrderStart => order_start_line(src, sh, l, p),
        Keyword::OrderEnd => order_end_line(src, sh, l, p),
        Keyword::Undefined => undefined_line(src, work, sh, l, p),
        Keyword::ReorderAfter => reorder_after_line(src, work, sh, l, p),
        Keyword::ReorderEnd => reorder_end_line(src, sh, l, p),
        Keyword::End => end_line(src, sh, l, p),
        Keyword::Other => Err(malformed(l.end.text)),
    }
}

// What the line at a place does.
pub fn line_step(
    src: Source,
    work: &mut [u32],
    sh: Sheet,
    at: usize,
    number: usize,
    depth: usize,
) -> Result<Step, Refusal>
    requires { LineAt src.signs src.bytes.now work.old sh at number depth }
    ensures { StepIs src.entry.signs src.entry.bytes.now work.old sh at number depth work.new result }
{
    match open_line(src, at) {
        Opening::Blank(e) => Ok(Step::Next(sh, e.next, e.feeds)),
        Opening::Foul(e) => Err(malformed(e.text)),
        Opening::Word(q, t, e) => {
            let l = Line {
                at,
                number,
                depth,
                end: e,
            };
            word_step(src, work, sh, l, q, t)
        }
        Opening::Name(_, t, e) => {
            let l = Line {
                at,
                number,
                depth,
                end: e,
            };
            name_line(src, work, sh, l, t)
        }
    }
}
