// The expression at a place of a line.
ghost use Rattle.std.specs.Prelude.{◌≤◌, length};
ghost use Rattle.register.specs.Shape.{Limits};
ghost use Rattle.text_codes.specs.Codes.{Roomy};
ghost use Rattle.text_sides.specs.Expression.{ExpressionAt};

use register::Sizes;
use text_codes::summary::Summary;
use text_expressions::reader;
use text_joins::{Gathered, Unread};

// What is gathered from the expression at `at`, its codes written from `count` on; or no expression stands there. One that is
// more than 8 groups deep is passed without codes.
pub fn read(
    line: &[u8],
    at: usize,
    sizes: Sizes,
    codes: &mut [u64],
    count: usize,
) -> Option<Gathered>
    requires { Limits sizes × (at ≤ length line.now) × Roomy codes.old line.now at count }
    ensures { ExpressionAt sizes line.now at codes.old codes.new count result }
{
    let before = Gathered {
        seen: Summary::nothing(),
        end: at,
        used: count,
    };
    match reader::read_expression(line, sizes, 8, before, codes) {
        Ok(read) => Some(read),
        Err(Unread::NoForm) => None,
        Err(Unread::Deep) => {
            let (seen, end) = text_scan::scan(line, at, sizes)?;
            Some(Gathered {
                seen,
                end,
                ..before
            })
        }
    }
}
