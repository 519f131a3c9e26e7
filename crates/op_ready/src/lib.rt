// The buffers that a caller lends to a run: what is asked of them before it, and the output behind it.
#![tactic(auto)]

ghost use Rattle.std.specs.Prelude.{◌≡◌, cond, ◌≤◌, eqb, length};
ghost use Rattle.register.specs.Shape.{Limits};
ghost use Rattle.machine.specs.Run.{scratch};
ghost use Rattle.op_ready.specs.Ready.{Readied};

use op_limits::Refusal;
use register::Sizes;

// The bytes of one slice to another of the same length: by a loop, since the library's function asks `memmove` of whom the static
// library is linked to.
fn copy(from: &[u8], to: &mut [u8])
    requires { length from.now ≡ length to.old }
    ensures { to.new ≡ from.now }
{
    for i in 0..from.len() {
        to[i] = from[i];
    }
}

// The register in the output, for a run of a program with at most this many lines in a step; or 18 or 19, and nothing is written.
#[tactic(auto, unfolding(crate::specs::Ready::length_refusal, op_limits::specs::Number::check_number, op_limits::specs::Number::refusal_number))]
pub fn ready(
    file: &[u8],
    sizes: Sizes,
    lines: usize,
    out: &mut [u8],
    values: &mut [i64],
    marks: &mut [u8],
) -> Result<(), Refusal>
    requires { Limits sizes × (lines ≤ 64) }
    ensures { Readied (scratch sizes lines) file.now out.old values.old marks.old
        out.new values.new marks.new result }
{
    if out.len() != file.len() {
        return Err(Refusal::Output);
    }
    if op_limits::is_short(sizes, lines, values.len(), marks.len()) {
        return Err(Refusal::Scratch);
    }
    copy(file, out);
    Ok(())
}

// The output behind a run: after 20 or 21 it is the register as loaded.
pub fn restore(file: &[u8], out: &mut [u8], refusal: u32)
    requires { length file.now ≡ length out.old }
    ensures { out.new ≡ cond (eqb refusal 0) out.old file.now }
{
    if refusal != 0 {
        copy(file, out);
    }
}
