// The page that is printed for a register file and a rules text, from the library's run.
#![tactic(auto)]

ghost use Rattle.std.specs.Prelude.{◌≡◌, ◌≤◌, length, take};
ghost use Rattle.io.specs.Counts.{IsPrefixLen};
ghost use Rattle.print_listing.specs.Room.{page_room};
ghost use Rattle.print_run.specs.RanBy.{RanBy};
ghost use Rattle.print_run.specs.Page.{printed_page};

use print_listing::Ran;
use print_page;
use print_ran;

// "allowance 1,000"
const BUDGET: u16 = 1000;

// The run of a text over a register file of at most 512 bytes, for which 6,600 places are enough (`proofs/Enough`).
fn run(file: &[u8], text: &[u8], out: &mut [u8]) -> Ran
    requires { (length file.now ≤ 512) × (length out.old ≡ length file.now) }
    ensures { RanBy file.now text.now out.old out.new result }
{
    let mut values = [0i64; 6600];
    let mut marks = [0u8; 6600];
    let answer = op_run::run_messages(file, text, BUDGET, out, &mut values, &mut marks);
    let counts = answer.counts;
    Ran {
        refusal: answer.refusal,
        line: answer.line,
        finished: answer.finished,
        exchanges: counts.exchanges,
        letters: counts.messages,
    }
}

// The page of a register file and a text, put at the start of `page`: its length.
pub fn page_of(file: &[u8], text: &[u8], page: &mut [u8]) -> usize
    requires { length page.old ≡ page_room }
    ensures prefix_len { IsPrefixLen result page.new }
    ensures page_after { take result page.new ≡ printed_page file.now text.now }
{
    let length = file.len();
    if 512 < length {
        return print_page::put_bytes(page, 0, b"too large\n");
    }
    let mut space = [0u8; 512];
    let out = &mut space[..length];
    let ran = run(file, text, out);
    print_ran::put_ran(page, file, out, ran)
}
