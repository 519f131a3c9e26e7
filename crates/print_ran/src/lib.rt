// What is printed of a run: the listing of its output, or its refusal.
#![tactic(auto)]

ghost use Rattle.std.specs.Prelude.{◌≡◌};
ghost use Rattle.register.specs.File.{sizes_of};
ghost use Rattle.print_page.specs.Put.{PageRoom, PagePut};
ghost use Rattle.print_ran.specs.Behind.{behind_at};
ghost use Rattle.print_ran.specs.RanPage.{Whole, ran_page};

use print_listing;
use print_listing::Ran;
use register;

// The number behind `at` where a refusal is printed.
#[tactic(auto, unfolding(crate::specs::Behind::behind_at))]
fn behind_at(refusal: u32, line: usize, finished: u16) -> usize
    ensures { result ≡ behind_at refusal line finished }
{
    match refusal {
        6..=15 | 24 | 25 => line,
        20 | 21 => finished as usize,
        _ => 0,
    }
}

// What is printed of a run over `file` that left the register `out`.
pub fn put_ran(page: &mut [u8], file: &[u8], out: &[u8], ran: Ran) -> usize
    requires { PageRoom 0 (ran_page (sizes_of file.now) out.now ran) page.old × (ran.refusal ≡ 0 → Whole file.now out.now) }
    ensures { PagePut 0 (ran_page (sizes_of file.now) out.now ran) page.old page.new result }
{
    if ran.refusal != 0 {
        let place = behind_at(ran.refusal, ran.line, ran.finished);
        return print_listing::put_refused(page, ran.refusal, place);
    }
    print_listing::put_listing(page, out, register::sizes_of(file), ran)
}
