// A copy of the job with other bounds in one row.
ghost use Rattle.std.specs.Prelude.{◌≡◌, ◌<◌, length};
ghost use Rattle.block.specs.Layout as L;
ghost use Rattle.block.specs.Inner.Valid.{Valid};
ghost use Rattle.allowances.specs.Inner.Asked.{Put};

use block::layout;

// Puts x and y for the bounds of row i, as far as there are resources.
fn put(block: &mut [u8], i: usize, x: usize, y: usize)
    requires valid { Valid block.old }
    requires i_bound { (i < L.rows block.old) × (x < 256) × (y < 256) }
    ensures { Put i x y block.old block.new }
{
    let n = layout::resources(block);
    layout::set_bound(block, i, 0, x as u8);
    if 1 < n {
        layout::set_bound(block, i, 1, y as u8);
    }
}

// Fills the copy with the job, and x and y for the bounds of row i.
pub fn put_copy(block: &[u8], i: usize, x: usize, y: usize, copy: &mut [u8])
    requires valid { Valid block.now }
    requires i_bound { (i < L.rows block.now) × (x < 256) × (y < 256) × (length copy.old ≡ L.block_bytes) }
    ensures { Put i x y block.now copy.new × (length copy.new ≡ L.block_bytes) }
{
    copy.copy_from_slice(block);
    put(copy, i, x, y);
}
