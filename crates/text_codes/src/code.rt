// Codes of an expression, written behind each other: both operands, then their operator.
ghost use Rattle.std.specs.Prelude.{◌<◌, length};
ghost use Rattle.text_codes.specs.Codes.{sign_codes, Wrote};

// A term as a code, and what 9 to 12 ask of it: that capitals name fields, that the chain goes over references, whether it is
// one, that it has at most 16 hops, that the number is in range.
#[derive(Clone, Copy)]
pub struct TermParts {
    pub code: u64,
    pub named: bool,
    pub kinded: bool,
    pub reference: bool,
    pub short: bool,
    pub ranged: bool,
}

// The code of an operator at place `at`, if there is one, and the place behind it.
#[tactic(auto, using(crate::proofs::Coding::wrote_none), unfolding(crate::specs::Codes::sign_codes))]
pub fn put_sign(codes: &mut [u64], at: usize, sign: Option<u64>) -> usize
    requires { at < length codes.old }
    ensures { Wrote codes.old codes.new at result (sign_codes sign) }
{
    let Some(code) = sign else {
        return at;
    };
    codes[at] = code;
    at + 1
}
