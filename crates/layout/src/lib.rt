// The plan in code: what is wrong with it, and where its units lie. The bottom layer of the library.
#![tactic(auto)]

ghost use Rattle.std.specs.Prelude.{◌≡◌, false, cond, ◌||◌, eqb, ltb, ◌+◌, ◌*◌, ◌≤◌, MatchResult};
ghost use Rattle.model.specs.Plans.{PageSize, bad_page};
ghost use Rattle.model.specs.Numbers.{number_of};
ghost use Rattle.model.specs.Refusals.{start_number};
ghost use Rattle.model.specs.Layout.{whole_pages, unit_length, base, width};
ghost use Rattle.layout.specs.Measures.{Measures};

use model::Plan;
use model::refusals::Refusal;

// The width of a unit; 0 past the eighth.
pub fn width_of(plan: Plan, unit: u16) -> u16
    ensures { result ≡ width plan unit }
{
    let at = unit as usize;
    if at < 8 { plan.widths[at] } else { 0 }
}

// A page of more than one byte.
fn many_bytes(page: u16) -> bool
    ensures { result ≡ ((eqb page 4 || eqb page 8) || eqb page 16) }
{
    matches!(page, 4 | 8 | 16)
}

// The bytes of a page; 1 for a size that is refused.
fn page_of(plan: Plan) -> u32
    ensures { result ≡ cond (bad_page plan.page) 1 plan.page }
{
    if many_bytes(plan.page) {
        (plan.page as u32)
    } else {
        1
    }
}

// A width rounded up to whole pages. The bits of an offset inside a page are those of `last`, since a page's size is a power of two.
pub fn copy_length(width: u16, page: u32) -> u32
    requires { PageSize page }
    ensures { (result ≡ whole_pages page width) × (result ≤ width + 15) }
{
    let last = page - 1;
    let most = (width as u32) + last;
    most - (most & last)
}

pub fn unit_length(plan: Plan, unit: u16) -> usize
    requires { bad_page plan.page ≡ false }
    ensures { (result ≡ unit_length plan unit) × (result ≤ 131116) }
{
    let page = page_of(plan);
    let copy = copy_length(width_of(plan, unit), page);
    (page + 2 * copy) as usize
}

// The image byte where a unit begins.
pub fn base_of(plan: Plan, unit: u16) -> usize
    requires { bad_page plan.page ≡ false }
    ensures { (result ≡ base plan unit) × (result ≤ unit * 131116) }
{
    let mut sum: usize = 0;
    for earlier in 0..unit {
        sum += unit_length(plan, earlier);
    }
    sum
}

// What one walk over a plan's widths gives: the bytes of all units and of a page, and where the unit asked for begins.
#[derive(Clone, Copy, Debug, PartialEq, Eq)]
pub struct Measured {
    pub base: u32,
    pub total: u32,
    pub page: u32,
}

// 0, or more than there may be.
fn outside(number: u16, most: u16) -> bool
    ensures { result ≡ (eqb number 0 || ltb most number) }
{
    number == 0 || most < number
}

// Refused: 1, 2 and 17. A unit takes a page for its marker, and two copies: so the sums are of the copies alone.
pub fn measure(plan: Plan, unit: u16) -> Result<Measured, Refusal>
    ensures { MatchResult result (Measures plan unit) (λ refusal. number_of refusal ≡ start_number plan) }
{
    if outside(plan.count, 8) {
        return Err(Refusal::BadCount);
    }
    let page = page_of(plan);
    let mut copies: u32 = 0;
    let mut earlier: u32 = 0;
    for i in 0..plan.count {
        let width = plan.widths[i as usize];
        if outside(width, 256) {
            return Err(Refusal::BadWidth);
        }
        if i == unit {
            earlier = copies;
        }
        copies += copy_length(width, page);
    }
    if page != plan.page as u32 {
        return Err(Refusal::BadPage);
    }
    Ok(Measured {
        base: (unit as u32) * page + 2 * earlier,
        total: (plan.count as u32) * page + 2 * copies,
        page,
    })
}
