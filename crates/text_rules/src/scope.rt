// What a text is read under.
use register::Sizes;

// The sizes of the register that the text is checked against.
#[derive(Clone, Copy)]
pub struct Scope {
    pub sizes: Sizes,
}
