// Lengths of lent buffers, and the numbers that stand in them for what there is not.
use block::layout;

// The stocks of one resource, the stock places of a state with two resources, and the most positions of a row.
pub const MAX_STOCKS: usize = layout::MAX_UNITS + 1;

pub const MAX_STOCK_PLACES: usize = MAX_STOCKS * MAX_STOCKS;

pub const MAX_POSITIONS: usize = layout::MAX_STATES * MAX_STOCK_PLACES;

// The sets of all rows; the ranks of a row, and working room, which holds them; its moves.
pub const SETS_BYTES: usize = 4 * layout::MAX_ROWS;

pub const ROOM_BYTES: usize = 2 * MAX_POSITIONS;

pub const MOVES_BYTES: usize = MAX_POSITIONS;

// The rank where nothing is enforced or forced, the largest other, and the move where the coalition does not win.
pub const NEVER: usize = 65535;

pub const LARGEST_RANK: usize = NEVER - 1;

pub const NO_MOVE: u8 = 255;
