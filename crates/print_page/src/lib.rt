// Bytes, numbers and cells, put on the page at a place: each function answers the place behind what it put. A page that
// knows its place would have to promise its length, which a lent slice keeps, and nothing ties it to the slice where it ends.
#![tactic(auto)]

ghost use Rattle.std.specs.Prelude.{◌≡◌, [], ◌∷◌, ◌++◌};
ghost use Rattle.print_page.specs.Decimal.{decimal_text, value_text, cell_text};
ghost use Rattle.print_page.specs.Put.{PageRoom, PagePut};

use register::cells::Cell;

pub fn put_byte(page: &mut [u8], at: usize, byte: u8) -> usize
    requires { PageRoom at (byte ∷ []) page.old }
    ensures { PagePut at (byte ∷ []) page.old page.new result }
{
    page[at] = byte;
    at + 1
}

pub fn put_bytes(page: &mut [u8], at: usize, bytes: &[u8]) -> usize
    requires { PageRoom at bytes.now page.old }
    ensures { PagePut at bytes.now page.old page.new result }
{
    let end = at + bytes.len();
    page[at..end].copy_from_slice(bytes);
    end
}

pub fn put_number(page: &mut [u8], at: usize, number: u64) -> usize
    requires { PageRoom at (decimal_text number) page.old }
    ensures { PagePut at (decimal_text number) page.old page.new result }
{
    let mut digits = [0u8; 20];
    let count = io::decimal(number, &mut digits);
    put_bytes(page, at, &digits[..count])
}

fn put_value(page: &mut [u8], at: usize, value: i32) -> usize
    requires { PageRoom at (value_text value) page.old }
    ensures { PagePut at (value_text value) page.old page.new result }
{
    let size = u64::from(value.unsigned_abs());
    if value < 0 {
        let next = put_byte(page, at, b'-');
        return put_number(page, next, size);
    }
    put_number(page, at, size)
}

// A value, and what stands behind it.
fn put_followed(page: &mut [u8], at: usize, value: i32, behind: &[u8]) -> usize
    requires { PageRoom at (value_text value ++ behind.now) page.old }
    ensures { PagePut at (value_text value ++ behind.now) page.old page.new result }
{
    let next = put_value(page, at, value);
    put_bytes(page, next, behind)
}

// "`-` for unfilled", and "`~` after a worked-out value"
pub fn put_cell(page: &mut [u8], at: usize, cell: Cell) -> usize
    requires { PageRoom at (cell_text cell) page.old }
    ensures { PagePut at (cell_text cell) page.old page.new result }
{
    match cell {
        Cell::Missing => put_byte(page, at, b'-'),
        Cell::Measured(value) => put_followed(page, at, value, b""),
        Cell::WorkedOut(value) => put_followed(page, at, value, b"~"),
    }
}
