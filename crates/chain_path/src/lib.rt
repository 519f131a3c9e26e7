// The path behind a reading (M-109): the cells that following a chain looks at, up to the value or the first missing one.
#![tactic(auto)]

ghost use Rattle.std.specs.Prelude.{◌≤◌};

use chain::{follow, packed, reading};
use register::cells::{Cell, Cells};

// One hop: the record that it stands at, the field, and the cell that is looked at.
#[derive(Clone, Copy)]
pub struct Hop {
    pub u: usize,
    pub field: usize,
    pub cell: Cell,
}

// At most 16 hops, the first `count` of the array: there is no heap.
#[derive(Clone, Copy)]
pub struct Path {
    pub hops: [Hop; 16],
    pub count: usize,
    pub ghost fits: { count ≤ 16 },
}

impl Path {
    ghost use Rattle.std.specs.Prelude.{◌≡◌, ◌<◌, [], ◌∷◌, ◌++◌};
    ghost use Rattle.register.specs.View.{cells_in};
    ghost use Rattle.register.specs.Shape.{Valid};
    ghost use Rattle.chain.specs.Word.{Passes, unpack};
    ghost use Rattle.chain_path.specs.Path.{hops_of, path_at_record, HoldsPath};

    // The path at `u` alone.
    pub fn none() -> Path
        ensures { HoldsPath result [] }
    {
        let hop = Hop {
            u: 0,
            field: 0,
            cell: Cell::Missing,
        };
        Path {
            hops: [hop; 16],
            count: 0,
        }
    }

    // One more hop.
    fn push(&mut self, hop: Hop)
        requires { HoldsPath self.old (hops_of self.old) × (self.old.count < 16) × (hop.field < 16) }
        ensures { HoldsPath self.new (hops_of self.old ++ hop ∷ []) }
    {
        self.hops[self.count] = hop;
        self.count += 1;
    }

    // The path of a packed chain at record u. Its step is that of `chain::follow`, and each cell that is looked at is
    // noted. A `while`, as a packed chain is a number, which no iterator walks.
    pub fn at_record(cells: &Cells<'_>, chain: u64, u: usize) -> Path
        requires { Valid cells.now.sizes (cells_in cells.now) × (u < cells.now.sizes.records) × Passes cells.now.sizes (unpack chain) }
        ensures { HoldsPath result (path_at_record cells.now.sizes (cells_in cells.now) (unpack chain) u) }
    {
        let mut path = Path::none();
        let mut reading = Some(integers::of_index(u));
        let mut rest = chain;
        while rest != 0 {
            let Some(value) = reading else {
                return path;
            };
            let field = packed::first_hop(rest) as usize;
            let at = integers::index(value);
            let cell = follow::field_cell(cells, at, field);
            path.push(Hop { u: at, field, cell });
            reading = reading::read_of(cell);
            rest = packed::rest_hops(rest);
        }
        path
    }

    // The hops that it has.
    pub fn listed(&self) -> &[Hop]
        ensures { result.now ≡ hops_of self.now }
    {
        &self.hops[..self.count]
    }
}
