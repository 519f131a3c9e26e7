// The register file: its sizes and its cells.
#![tactic(auto)]

ghost use Rattle.std.specs.Prelude.{◌≡◌, ◌+◌, ◌*◌, ◌≤◌, ◌<◌, length};
ghost use Rattle.register.specs.File.{sizes_of, width, cell_count, cell_index};
ghost use Rattle.register.specs.Shape.{Limits};

pub mod cells;

// n, r and m of document 01.
#[derive(Clone, Copy)]
pub struct Sizes {
    pub records: usize,
    pub references: usize,
    pub measures: usize,
}

// The sizes that a file begins with.
#[tactic(auto, unfolding(crate::specs::File::sizes_of))]
pub fn sizes_of(file: &[u8]) -> Sizes
    requires { 12 ≤ length file.now }
    ensures { result ≡ sizes_of file.now }
{
    Sizes {
        records: integers::word_at(file, 0) as usize,
        references: integers::word_at(file, 4) as usize,
        measures: integers::word_at(file, 8) as usize,
    }
}

#[tactic(auto, unfolding(crate::specs::File::cell_count, crate::specs::File::width))]
pub fn cell_count(sizes: Sizes) -> usize
    requires { Limits sizes }
    ensures { result ≡ cell_count sizes }
{
    sizes.records * (sizes.references + sizes.measures)
}

// Where the cell of record u and field f stands.
#[tactic(auto, unfolding(crate::specs::File::cell_index, crate::specs::File::width, crate::specs::File::cell_count))]
pub fn cell_index(sizes: Sizes, u: usize, f: usize) -> usize
    requires { Limits sizes × (u < sizes.records) × (f < width sizes) }
    ensures { result ≡ cell_index sizes u f }
{
    u * (sizes.references + sizes.measures) + f
}
