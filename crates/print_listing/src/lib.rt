// The lines that are printed: a register's listing, and a refusal.
#![tactic(auto)]

ghost use Rattle.std.specs.Prelude.{◌≡◌, ◌++◌, ◌+◌, ◌*◌, ◌<◌, length};
ghost use Rattle.register.specs.File.{cell_count, cells_of_file};
ghost use Rattle.register.specs.Shape.{Limits};
ghost use Rattle.register.specs.View.{cells_in};
ghost use Rattle.print_page.specs.Decimal.{decimal_text};
ghost use Rattle.print_page.specs.Put.{PageRoom, PagePut};
ghost use Rattle.print_listing.specs.Listing.{header, in_a_row, record_line, listing, refused_line};

use print_page::{put_byte, put_bytes, put_cell, put_number};
use register::Sizes;
use register::cells::Cells;

// The refusal's number, 0 for none, and its line; the finished steps, and their exchanges and letters. They are numbers
// here, since they are printed.
#[derive(Clone, Copy, Debug, PartialEq, Eq)]
pub struct Ran {
    pub refusal: u32,
    pub line: usize,
    pub finished: u16,
    pub exchanges: usize,
    pub letters: usize,
}

fn put_count(page: &mut [u8], at: usize, count: u64, name: &[u8]) -> usize
    requires { PageRoom at (decimal_text count ++ name.now) page.old }
    ensures { PagePut at (decimal_text count ++ name.now) page.old page.new result }
{
    let next = put_number(page, at, count);
    put_bytes(page, next, name)
}

fn put_header(page: &mut [u8], records: usize, ran: Ran) -> usize
    requires { PageRoom 0 (header records ran.finished ran.exchanges ran.letters) page.old }
    ensures { PagePut 0 (header records ran.finished ran.exchanges ran.letters) page.old page.new result }
{
    let steps = put_count(page, 0, records as u64, b" records ");
    let exchanges = put_count(page, steps, ran.finished as u64, b" steps ");
    let letters = put_count(page, exchanges, ran.exchanges as u64, b" exchanges ");
    put_count(page, letters, ran.letters as u64, b" letters\n")
}

fn put_record(page: &mut [u8], at: usize, cells: &Cells<'_>, u: usize) -> usize
    requires { (u < cells.now.sizes.records) × PageRoom at (record_line cells.now.sizes (cells_in cells.now) u) page.old }
    ensures { PagePut at (record_line cells.now.sizes (cells_in cells.now) u) page.old page.new result }
{
    let mut next = put_number(page, at, u as u64);
    for f in 0..cells.sizes.references + cells.sizes.measures {
        let cell = cells.at(register::cell_index(cells.sizes, u, f));
        next = put_byte(page, next, b' ');
        next = put_cell(page, next, cell);
    }
    put_byte(page, next, b'\n')
}

fn put_records(page: &mut [u8], at: usize, cells: &Cells<'_>) -> usize
    requires { PageRoom at (in_a_row cells.now.sizes.records (record_line cells.now.sizes (cells_in cells.now))) page.old }
    ensures { PagePut at (in_a_row cells.now.sizes.records (record_line cells.now.sizes (cells_in cells.now))) page.old page.new result }
{
    let mut next = at;
    for u in 0..cells.sizes.records {
        next = put_record(page, next, cells, u);
    }
    next
}

// The listing of a register file.
pub fn put_listing(page: &mut [u8], file: &[u8], sizes: Sizes, ran: Ran) -> usize
    requires { Limits sizes × (length file.now ≡ 12 + 5 * cell_count sizes)
        × PageRoom 0 (listing sizes (cells_of_file sizes file.now) ran.finished ran.exchanges ran.letters) page.old }
    ensures { PagePut 0 (listing sizes (cells_of_file sizes file.now) ran.finished ran.exchanges ran.letters) page.old page.new result }
{
    let at = put_header(page, sizes.records, ran);
    let cells = Cells::of(file, sizes);
    put_records(page, at, &cells)
}

// A refusal's number, and the number behind `at`.
pub fn put_refused(page: &mut [u8], refusal: u32, place: usize) -> usize
    requires { PageRoom 0 (refused_line refusal place) page.old }
    ensures { PagePut 0 (refused_line refusal place) page.old page.new result }
{
    let number = put_bytes(page, 0, b"refused ");
    let next = put_count(page, number, refusal as u64, b" at ");
    put_count(page, next, place as u64, b"\n")
}
