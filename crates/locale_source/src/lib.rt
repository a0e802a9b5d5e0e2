// All lines of a locale source: those before LC_COLLATE, its own, and those after it.
#![tactic(auto)]

ghost use Rattle.text_specials.specs.Signed.{Visible};
ghost use Rattle.locale_outside.specs.Outside.{signs_of};
ghost use Rattle.locale_skips.specs.Passing.{Begins};
ghost use Rattle.locale_category.specs.Category.{Ready};
ghost use Rattle.locale_source.specs.Whole.{Empty, AfterIs, InsideIs, SourceIs};

use base_units::Refusal;
use locale_category::category_lines;
use locale_outside::{Outers, outer_lines};
use locale_sheet::Sheet;
use text_lines::{Signs, Source};
use text_specials::{Chars, start};

// The lines after LC_COLLATE, which has left the sheet.
fn lines_after(
    src: &[u8],
    c: Chars,
    sh: Sheet,
    at: usize,
    number: usize,
) -> Result<(Signs, Sheet), (Refusal, usize)>
    requires { Begins src.now at number × Visible (signs_of c) }
    ensures { AfterIs c src.now sh at number result }
{
    match outer_lines(src, c, false, true, at, number)? {
        Outers::Collate(_, _, n) => Err((Refusal::Malformed, n)),
        Outers::End(_, first, n) => {
            if first {
                Err((Refusal::Malformed, n))
            } else {
                let g = Signs {
                    comment: c.comment,
                    escape: c.escape,
                };
                Ok((g, sh))
            }
        }
    }
}

// The lines from the one after LC_COLLATE on.
fn lines_in(
    src: &[u8],
    c: Chars,
    work: &mut [u32],
    at: usize,
    number: usize,
) -> Result<(Signs, Sheet), (Refusal, usize)>
    requires { Ready src.now work.old at number × Visible (signs_of c) }
    ensures { InsideIs c src.now at number work.new result }
{
    let text = Source {
        bytes: src,
        signs: Signs {
            comment: c.comment,
            escape: c.escape,
        },
    };
    // no `?`: must-fail/ takes the line of the refusal out of the second arm
    match category_lines(text, work, at, number) {
        Ok((sh, next, n)) => lines_after(src, c, sh, next, n),
        Err((r, l)) => Err((r, l)),
    }
}

// All lines, with an empty work area.
pub fn source_lines(src: &[u8], work: &mut [u32]) -> Result<(Signs, Sheet), (Refusal, usize)>
    requires { Empty src.now work.old }
    ensures { SourceIs src.now work.new result }
{
    match outer_lines(src, start(), true, false, 0, 1)? {
        Outers::Collate(h, at, n) => lines_in(src, h, work, at, n),
        Outers::End(_, _, n) => Err((Refusal::Malformed, n)),
    }
}
